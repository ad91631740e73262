//! Parts of lines.
ghost use Rattle.std.specs.Prelude.{◌++◌, [], ◌∷◌, decimal};
ghost use Rattle.spec_words.specs.Bytes.{line_feed};
ghost use Rattle.playlist_write.specs.Spelling.{byte_range_text};
ghost use Rattle.playlist_write.specs.Owed.{with_feed};
ghost use Rattle.fixed_duration.specs.Appended.{Appends};

use itoa::Buffer;
use playlist_model::ByteRange;
use std::alloc::AllocError;

/// Appends `number` to `out` in decimal. Fails only if an allocation fails.
#[inline(always)]
pub fn write_number(out: &mut String, number: u64) -> Result<(), AllocError>
    ensures { Appends result out.old out.new (decimal number) }
{
    let mut buffer = Buffer::new();
    out.push_str(buffer.format(number))?;
    Ok(())
}

/// Appends a line feed to `out`. Fails only if an allocation fails.
pub fn write_line_feed(out: &mut String) -> Result<(), AllocError>
    ensures { Appends result out.old out.new (line_feed ∷ []) }
{
    out.push('\n')
}

/// Appends `line` and a line feed to `out`. Fails only if an allocation fails.
pub fn write_line(out: &mut String, line: &str) -> Result<(), AllocError>
    ensures { Appends result out.old out.new (with_feed line.now) }
{
    out.push_str(line)?;
    write_line_feed(out)
}

/// Appends to `out` the line of `tag` and then `rest`. Fails only if an allocation fails.
pub fn write_tag_line(out: &mut String, tag: &str, rest: &str) -> Result<(), AllocError>
    ensures { Appends result out.old out.new (with_feed (tag.now ++ rest.now)) }
{
    out.push_str(tag)?;
    write_line(out, rest)
}

/// Appends to `out` the line of `tag` and then `number` in decimal. Fails only if an allocation fails.
pub fn write_number_line(out: &mut String, tag: &str, number: u64) -> Result<(), AllocError>
    ensures { Appends result out.old out.new (with_feed (tag.now ++ decimal number)) }
{
    out.push_str(tag)?;
    write_number(out, number)?;
    write_line_feed(out)
}

/// Appends `byte_range` to `out` as `n@o` (RFC 8216, section 4.3.2.2). Fails only if an allocation fails.
pub fn write_byte_range(out: &mut String, byte_range: ByteRange) -> Result<(), AllocError>
    ensures { Appends result out.old out.new (byte_range_text byte_range.length byte_range.offset) }
{
    write_number(out, byte_range.length)?;
    out.push('@')?;
    write_number(out, byte_range.offset)
}

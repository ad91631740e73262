//! Laws of attribute lists. Each function's contract is its law; calling it does nothing.
ghost use Rattle.attr_list.specs.Laws.{ReadsTheGrammar, HasOneList, WrittenIsRead, WithinLimit, PastLimit, LimitOnlyRefuses, PiecesAreAttributes, SlicesArePieces, DecimalsAreRead};

/// Without a limit the reading gives exactly the lists of the grammar, and a text has at most one.
pub fn reads_the_attribute_grammar()
    ensures reads { ReadsTheGrammar }
    ensures one { HasOneList }
{}

/// What is written of attributes is read as these attributes.
pub fn written_attributes_are_read()
    ensures { WrittenIsRead }
{}

/// The limit of a list's length only refuses.
pub fn attribute_limit_only_refuses()
    ensures within { WithinLimit }
    ensures past { PastLimit }
    ensures exactly { LimitOnlyRefuses }
{}

/// The slices of the text at the attributes' places are their spellings.
pub fn attribute_slices_are_spellings()
    ensures pieces { PiecesAreAttributes }
    ensures slices { SlicesArePieces }
{}

/// A number below 2^64 that is written in decimal is read.
pub fn written_decimal_is_read()
    ensures { DecimalsAreRead }
{}

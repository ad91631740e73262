//! How the state of a break is told.
ghost use Rattle.std.specs.Prelude.{◌≡◌};
ghost use Rattle.channel_api.specs.FaultTexts.{why_word};

use break_finder::Why;

/// The word for `why` a break is filled or not, as `Filled`.
pub fn why_word(why: Why) -> &'static str
    ensures { result.now ≡ why_word why }
{
    match why {
        Why::Filled => "Filled",
        Why::NotKnown => "NotKnown",
        Why::NoStart => "NoStart",
        Why::NotSignalled => "NotSignalled",
        Why::NotDecided => "NotDecided",
        Why::DoesNotFit => "DoesNotFit",
        Why::Waiting => "Waiting",
    }
}

//! A law on what bytes ask.
ghost use Rattle.std.specs.Prelude.{◌≡◌, ℕ, List};
ghost use Rattle.http_messages.specs.declared.receiving.Asked.{Asked as Question};
ghost use Rattle.http_messages.specs.Received.{IsAsked};

/// Bytes ask at most one request, or are refused for one reason, and never both.
pub fn bytes_ask_one_thing()
    ensures { (bytes : List ℕ) (one other : Question) → IsAsked bytes one → IsAsked bytes other →
        one ≡ other }
{}

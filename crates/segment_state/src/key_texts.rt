//! The texts that key tags state, of which most are those of the tag before.
ghost use Rattle.std.specs.Prelude.{◌≡◌, IfOk};

use playlist_model::{OtherAttributes, Shared, Text};
use std::alloc::{AllocError, Global};

/// A text of which the last one is kept, to be shared with the next if that is the same.
#[derive(Drop)]
pub struct RepeatedText {
    last: Option<Shared<Text>>,
}

impl RepeatedText {
    /// `text`, to be shared: if it is the last one, that has an owner more. It is then the last one. Fails only if an
    /// allocation fails.
    pub fn share(&mut self, alloc: Global, text: &str) -> Result<Shared<Text>, AllocError>
        ensures { IfOk result (λ shared. shared ≡ text.now) }
    {
        if let Some(last) = &self.last {
            if last.as_str() == text {
                return last.clone();
            }
        }
        let shared = Shared::copy_of(alloc, text)?;
        self.last = Some(shared.clone()?);
        Ok(shared)
    }
}

/// The texts that the last key tag stated.
#[derive(Drop)]
pub struct KeyTexts {
    /// KEYFORMAT.
    pub formats: RepeatedText,
    /// METHOD.
    pub methods: RepeatedText,
    others: Option<Shared<OtherAttributes>>,
}

impl KeyTexts {
    /// None was stated yet.
    pub fn new() -> KeyTexts {
        KeyTexts {
            formats: RepeatedText { last: None },
            methods: RepeatedText { last: None },
            others: None,
        }
    }

    /// `others`, the other attributes of a tag, to be shared: if they are the last ones, those have an owner more. They
    /// are then the last ones. Fails only if an allocation fails.
    pub fn share_others(
        &mut self,
        alloc: Global,
        others: OtherAttributes,
    ) -> Result<Shared<OtherAttributes>, AllocError>
        ensures { IfOk result (λ shared. shared ≡ others) }
    {
        if let Some(last) = &self.others {
            if last.as_str() == others.as_str() {
                return last.clone();
            }
        }
        let shared = Shared::new(alloc, others)?;
        self.others = Some(shared.clone()?);
        Ok(shared)
    }
}

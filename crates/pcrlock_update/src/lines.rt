//! The lines that commands on policies print.
ghost use Rattle.std.specs.Prelude.{◌≡◌, ◌++◌, IfOk};
ghost use Rattle.pcrlock_answer.specs.Texts.{pin_text};
ghost use Rattle.pcrlock_update.specs.NewPolicy.{made_text as text_of_made};
ghost use Rattle.pcrlock_update.specs.Update.{updated_text as text_of_update};

use pcrlock_answer::pin_line;
use pl_base::Memory;
use std::alloc::Global;

/// A text with the line of a pin behind it.
pub(crate) fn with_pin(alloc: Global, text: Vec<u8>, pin: &[u8; 32]) -> Result<Vec<u8>, Memory>
    ensures { IfOk result (λ whole. whole.items ≡ text.items ++ pin_text pin.now) }
{
    let mut text = text;
    let line = pin_line(alloc, pin)?;
    text.extend_from_slice(line.as_slice())?;
    Ok(text)
}

/// A text with `made` behind it.
#[tactic(auto, unfolding(crate::specs::NewPolicy::made_text))]
pub(crate) fn with_made(text: Vec<u8>) -> Result<Vec<u8>, Memory>
    ensures { IfOk result (λ whole. whole.items ≡ text.items ++ text_of_made) }
{
    let mut text = text;
    text.extend_from_slice(b"made\n")?;
    Ok(text)
}

/// A text with `updated` behind it.
#[tactic(auto, unfolding(crate::specs::Update::updated_text))]
pub(crate) fn with_updated(text: Vec<u8>) -> Result<Vec<u8>, Memory>
    ensures { IfOk result (λ whole. whole.items ≡ text.items ++ text_of_update) }
{
    let mut text = text;
    text.extend_from_slice(b"updated\n")?;
    Ok(text)
}

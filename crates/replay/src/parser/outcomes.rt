// What stands behind a call: at which operation power is lost and what that leaves, and by how much appends raise the forced count.
use crate::bad_line::{Argument, BadLine};
use crate::parser::words::Words;
use script::{Choice, Loss, PowerPlan};

#[derive(Clone, Copy, Default)]
struct Outcomes {
    loss: Option<Loss>,
    raise: Option<u32>,
}

// The plan for a call, from what stands behind its first `;`.
pub(crate) fn plan(text: Option<&str>) -> Result<PowerPlan, BadLine> {
    let mut outcomes = Outcomes::default();
    if let Some(text) = text {
        for outcome in text.split(';') {
            outcomes.note(&mut Words::new(outcome))?;
        }
    }
    Ok(PowerPlan::new(outcomes.loss, outcomes.raise.unwrap_or(0)))
}

impl Outcomes {
    fn note(&mut self, words: &mut Words) -> Result<(), BadLine> {
        match words.word() {
            Some("dark") if self.loss.is_none() => self.loss = Some(loss(words)?),
            Some("raise") if self.raise.is_none() => {
                self.raise = Some(words.number(Argument::Raise)?);
            }
            Some("dark" | "raise") => return Err(BadLine::OutcomeTwice),
            _ => return Err(BadLine::Expected(Argument::Outcome)),
        }
        words.finish()
    }
}

fn loss(words: &mut Words) -> Result<Loss, BadLine> {
    let operation = words.number(Argument::Operation)?;
    let choice = match words.word() {
        Some("old") => Choice::Old,
        Some("new") => Choice::New,
        Some("before") => Choice::Before,
        Some("after") => Choice::After,
        word => word
            .and_then(|word| word.parse().ok())
            .map(Choice::Count)
            .ok_or(BadLine::Expected(Argument::Choice))?,
    };
    Loss::at(operation, choice).ok_or(BadLine::Expected(Argument::Operation))
}

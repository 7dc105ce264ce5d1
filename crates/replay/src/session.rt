// The server that the last store line began, and what a command does with it.
use crate::bad_line::BadLine;
use crate::command::{Call, ChangeKind, Command, Edit, Store};
use crate::printer::print_state;
use crate::runner::{Answer, Runner};
use changes::{Addition, Patch};
use script::PowerPlan;
use server::Refusal;
use std::alloc::{AllocError, Global};
use std::io;
use std::io::Write;

// What there is to print for a line.
#[derive(Drop)]
pub enum Outcome {
    Nothing,
    Answer(Result<Answer, Refusal>),
    State,
}

#[derive(Drop)]
pub struct Session {
    heap: Global,
    // None before the first store line.
    server: Option<AnyRunner>,
}

// The kind of change is a type of the server, and a word of the store line.
#[derive(Drop)]
enum AnyRunner {
    Patch(Runner<Patch>),
    Addition(Runner<Addition>),
}

impl Session {
    pub(crate) fn new(heap: Global) -> Session {
        Session { heap, server: None }
    }

    pub(crate) fn obey(&mut self, command: Command) -> Result<Outcome, BadLine> {
        match command {
            Command::Store(store) => {
                self.server = Some(AnyRunner::new(self.heap, store)?);
                Ok(Outcome::Nothing)
            }
            Command::Call(call, plan) => {
                let server = self.server.as_mut().ok_or(BadLine::NoStore)?;
                Ok(Outcome::Answer(server.call(call, plan)?))
            }
            Command::Edit(edit) => {
                self.edit(&edit)?;
                Ok(Outcome::Nothing)
            }
            Command::Dump if self.server.is_none() => Err(BadLine::NoStore),
            Command::Dump => Ok(Outcome::State),
        }
    }

    fn edit(&mut self, edit: &Edit) -> Result<(), BadLine> {
        let server = self.server.as_ref().ok_or(BadLine::NoStore)?;
        server.check(edit)?;
        if let Some(server) = self.server.take() {
            self.server = Some(server.edited(edit)?);
        }
        Ok(())
    }

    pub(crate) fn print_state<W: Write>(&self, out: &mut W) -> io::Result<()> {
        match &self.server {
            Some(AnyRunner::Patch(runner)) => print_state(out, runner.server()),
            Some(AnyRunner::Addition(runner)) => print_state(out, runner.server()),
            None => Ok(()),
        }
    }
}

impl AnyRunner {
    fn new(heap: Global, store: Store) -> Result<AnyRunner, AllocError> {
        Ok(match store.kind {
            ChangeKind::Patch => AnyRunner::Patch(Runner::new(heap, store.pages, store.slots)?),
            ChangeKind::Addition => {
                AnyRunner::Addition(Runner::new(heap, store.pages, store.slots)?)
            }
        })
    }

    fn call(&mut self, call: Call, plan: PowerPlan) -> Result<Result<Answer, Refusal>, BadLine> {
        match self {
            AnyRunner::Patch(runner) => runner.call(call, plan),
            AnyRunner::Addition(runner) => runner.call(call, plan),
        }
    }

    fn check(&self, edit: &Edit) -> Result<(), BadLine> {
        match self {
            AnyRunner::Patch(runner) => runner.check(edit),
            AnyRunner::Addition(runner) => runner.check(edit),
        }
    }

    fn edited(self, edit: &Edit) -> Result<AnyRunner, BadLine> {
        Ok(match self {
            AnyRunner::Patch(runner) => AnyRunner::Patch(runner.edited(edit)?),
            AnyRunner::Addition(runner) => AnyRunner::Addition(runner.edited(edit)?),
        })
    }
}

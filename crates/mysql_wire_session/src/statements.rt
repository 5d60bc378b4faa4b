//! The statements that were prepared.

ghost use Rattle.std.specs.Prelude.{◌≡◌, ◌∷◌, [], OnErr, OnOk, option_copied, take};
ghost use Rattle.mysql_wire_session.specs.State.{statement_of};

use mysql_wire_statements::com_stmt_prepare_ok::ComStmtPrepareOk;
use std::alloc::{AllocError, Allocator};

// How many statements are known at a time.
const COUNT: usize = 64;

/// How many parameters and columns the statements that were prepared last have, the newest first.
#[derive(Drop)]
pub struct Statements<A: Allocator> {
    known: Vec<ComStmtPrepareOk, A>,
}

impl<A: Allocator> Statements<A> {
    pub fn new(alloc: A) -> Self
        ensures { result.known.items ≡ [] }
    {
        Statements {
            known: Vec::new(alloc),
        }
    }

    /// One more. The oldest is forgotten where there are too many.
    pub fn put(&mut self, statement: ComStmtPrepareOk) -> Result<(), AllocError>
        ensures keeps { OnOk result (self.new.known.items ≡ take 64 (statement ∷ self.old.known.items)) }
        ensures stays { OnErr result (self.new.known.items ≡ self.old.known.items) }
    {
        match self.known.insert(0, statement) {
            Ok(()) => {
                self.known.truncate(COUNT);
                Ok(())
            }
            Err(failed) => Err(AllocError::from(failed)),
        }
    }

    /// The newest statement of this number.
    pub fn get(&self, number: u32) -> Option<&ComStmtPrepareOk>
        ensures { option_copied result ≡ statement_of number self.now.known.items }
    {
        self.known
            .iter()
            .find(|statement| statement.statement_id == number)
    }
}

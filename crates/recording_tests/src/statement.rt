//! A prepared statement: what has to be known of it to read its parameters and its rows.

use mysql_wire_statements::binary_row::BinaryRow;
use mysql_wire_statements::binary_value::BinaryValue;
use mysql_wire_statements::com_stmt_execute::ComStmtExecute;
use mysql_wire_statements::com_stmt_prepare_ok::ComStmtPrepareOk;
use mysql_wire_statements::params::{ParamTypes, StmtParams};
use refusing_allocator::Refusing;
use std::alloc::Global;
use test_support::fields::is_written;
use test_support::reference::between;
use wire_buf::error::WireError;
use wire_buf::io::ParseBuf;
use wire_const::ColumnType;

/// A statement that is prepared.
#[derive(Drop)]
pub struct Statement {
    pub id: u32,
    pub num_params: u16,
    // The types of the parameters, as a client sent them last.
    types: Vec<ColumnType>,
    // The parameters whose values were sent ahead.
    sent_ahead: Vec<u16>,
}

impl Statement {
    pub fn new(alloc: Global, prepared: ComStmtPrepareOk) -> Statement {
        Statement {
            id: prepared.statement_id,
            num_params: prepared.num_params,
            types: Vec::new(alloc),
            sent_ahead: Vec::new(alloc),
        }
    }

    /// A value of this parameter was sent ahead; false without memory.
    pub fn note_sent_ahead(&mut self, param_id: u16) -> bool {
        self.sent_ahead.push(param_id).is_ok()
    }

    /// What was sent ahead is gone.
    pub fn forget_sent_ahead(&mut self) {
        self.sent_ahead.clear();
    }

    /// Whether the parameters have values of their types, and no byte more.
    pub fn has_params(&mut self, alloc: Global, command: &ComStmtExecute<'_>) -> bool {
        let Some(params) = &command.params else {
            return true;
        };
        let is_typed = match &params.types {
            Some(types) => self.note_types(types),
            None => true,
        };
        let has_values = is_typed && self.has_values(alloc, params);
        self.sent_ahead.clear();
        has_values
    }

    // Keeps the types of the parameters; false where one is unknown.
    fn note_types(&mut self, types: &ParamTypes<'_>) -> bool {
        self.types.clear();
        for place in 0..self.num_params {
            let Some(param) = types.get(place as usize) else {
                return false;
            };
            let Ok(column_type) = param.column_type.get() else {
                return false;
            };
            if self.types.push(column_type).is_err() {
                return false;
            }
        }
        true
    }

    fn has_values(&self, alloc: Global, params: &StmtParams<'_>) -> bool {
        let mut values = Values::new(params.values);
        for place in 0..self.num_params {
            if params.nulls.is_null(place as usize) || self.sent_ahead.contains(&place) {
                continue;
            }
            let Some(column_type) = self.types.get(place as usize) else {
                return false;
            };
            values.read(alloc, *column_type);
        }
        values.are_written_back()
    }
}

// Values in a row, and whether each was read and is written as the bytes that were eaten.
#[derive(Drop)]
struct Values<'a> {
    rest: ParseBuf<'a>,
    are_written: bool,
}

impl<'a> Values<'a> {
    fn new(all: &'a [u8]) -> Values<'a> {
        Values {
            rest: ParseBuf(all),
            are_written: true,
        }
    }

    fn read(&mut self, alloc: Global, column_type: ColumnType) {
        let before = self.rest.0;
        let value = self.rest.parse::<BinaryValue<'a>>(alloc, column_type);
        self.note(alloc, before, value);
    }

    // (whichever request for memory is refused)
    fn note(&mut self, alloc: Global, before: &[u8], value: Result<BinaryValue<'a>, WireError>) {
        let heap = Refusing::new(alloc, 0);
        let eaten = before.len().saturating_sub(self.rest.len());
        self.are_written &= match value {
            Ok(value) => is_written(&heap, &value, between(before, 0, eaten)),
            Err(_) => false,
        };
    }

    fn are_written_back(&self) -> bool {
        self.are_written & self.rest.is_empty()
    }
}

/// Whether the row has values of these columns, and no byte more.
pub fn has_columns(alloc: Global, row: &BinaryRow<'_>, columns: &[ColumnType]) -> bool {
    let mut values = Values::new(row.values);
    for (place, column_type) in columns.iter().enumerate() {
        let before = values.rest.0;
        let value = row.value(alloc, place, *column_type, &mut values.rest);
        values.note(alloc, before, value);
    }
    values.are_written_back()
}

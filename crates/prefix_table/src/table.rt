//! `Table`, distinct rows in order: `from_rows`, and `best` for an address.

ghost use Rattle.std.specs.Prelude.{◌≡◌, IfOk, IfSome, IfNone, OnSome, Contains, true};
ghost use Rattle.prefix_table.specs.Rows.{IsTable, IsLongest, best, row_covers};
ghost use Rattle.prefix_table.specs.declared.rows.Row.{Row};

use crate::in_order::is_table;
use crate::search::longest_match;
use crate::{Memory, Row};
use std::alloc::{AllocError, Global};
use std::marker::Model;

/// Rows with distinct prefixes, rising by bits and then by length.
#[derive(Drop)]
pub struct Table {
    rows: Vec<Row>,
}

impl Model for Table {
    ghost use Rattle.std.specs.Prelude.{List};
    ghost use Rattle.prefix_table.specs.declared.rows.Row.{Row};
    ghost use Rattle.prefix_table.specs.Rows.{IsTable};

    ghost Value = { List Row };

    ghost view = { λ t. t.rows.items };

    ghost invariant = { λ t. IsTable t.rows.items };
}

impl Table {
    /// Makes a table of these rows, which rise and have distinct prefixes.
    pub(crate) fn of(rows: Vec<Row>) -> Table
        requires { IsTable rows.items }
        ensures { result ≡ rows.items }
    {
        Table { rows }
    }

    /// Makes a table of these rows, or returns `None` if they are not those of a table: they must
    /// rise strictly by bits and then by length, be at most `MAX_ROWS`, and have no bit set after
    /// their prefix and a number from 1 to `MAX_ASN`.
    pub fn from_rows(alloc: Global, rows: &[Row]) -> Result<Option<Table>, Memory>
        ensures found { IfOk result (λ made. IfSome made (λ table. table ≡ rows.now)) }
        ensures some { IfOk result (λ made. OnSome made (IsTable rows.now)) }
        ensures none { IfOk result (λ made. IfNone made (IsTable rows.now → ⊥)) }
    {
        if !is_table(rows) {
            return Ok(None);
        }
        Ok(Some(Table {
            rows: Vec::from_slice(alloc, rows)?,
        }))
    }

    /// Returns the rows, rising by bits and then by length.
    pub fn rows(&self) -> &[Row]
        ensures value { result.now ≡ self.now }
        ensures table { IsTable self.now }
    {
        self.rows.as_slice()
    }

    /// Returns a copy of the table.
    pub fn copy(&self, alloc: Global) -> Result<Table, AllocError>
        ensures { IfOk result (λ table. table ≡ self.now) }
    {
        let rows = Vec::from_slice(alloc, self.rows.as_slice())?;
        Ok(Table { rows })
    }

    /// Returns the rows as a list of their own, in the same order. Takes no memory.
    pub fn into_rows(self) -> Vec<Row>
        ensures value { result.items ≡ self }
        ensures table { IsTable self }
    {
        self.rows
    }

    /// Returns the AS number of the most specific row that covers `address`, or 0 if none does
    /// (RFC 4632, section 5.1). An IPv4 address is asked for as the mapped IPv6 address.
    pub fn best(&self, address: u128) -> u32
        ensures found { result ≡ best self.now address }
        ensures longest { (row : Row) → IsLongest self.now address row → result ≡ row.asn }
        ensures none { ((row : Row) → Contains self.now row → row_covers row address ≡ true → ⊥)
            → result ≡ 0 }
    {
        match longest_match(self.rows.as_slice(), address) {
            Some(row) => row.asn,
            None => 0,
        }
    }
}

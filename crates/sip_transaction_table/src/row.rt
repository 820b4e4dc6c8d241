ghost use Rattle.std.specs.Prelude.{◌≡◌, ℕ};
ghost use Rattle.sip_transaction_table.specs.declared.key.TransactionKey.{TransactionKey};
ghost use Rattle.sip_transaction_table.specs.declared.transaction.Transaction.{Transaction};

use crate::{Transaction, TransactionKey};

/// What stands in a table: an open request, by its number and its key.
pub trait TransactionRow: Drop {
    // The number of the datagram that opened it.
    ghost number: { Self → ℕ };

    // What its server transaction is found by.
    ghost key: { Self → TransactionKey };

    // What it is once one of its transactions ended.
    ghost ended: { Transaction → Self → Self };

    /// The number of the datagram that opened it.
    fn number(&self) -> u64
        ensures { result ≡ number self.now };

    /// What its server transaction is found by (RFC 3261 17.2.3).
    fn key(&self) -> &TransactionKey
        ensures { result.now ≡ key self.now };

    /// One of its transactions ends; its number and its key stay. Takes no memory.
    fn end(&mut self, transaction: Transaction)
        ensures ended { self.new ≡ ended transaction self.old }
        ensures number { number self.new ≡ number self.old }
        ensures key { key self.new ≡ key self.old };
}

ghost use Rattle.sip_request.specs.Ended.{become};
ghost use Rattle.sip_fork.specs.Ending.{ended};

use crate::ending;
use sip_request::Request;
use sip_transaction_table::{Transaction, TransactionKey, TransactionRow};
use std::marker::Model;

/// An open request as a row of the table, seen as the request.
#[derive(Drop)]
pub(crate) struct OpenRow {
    pub(crate) request: Request,
}

impl Model for OpenRow {
    ghost use Rattle.sip_request.specs.declared.request.Request.{Request};

    ghost Value = { Request };

    ghost view = { λ s. s.request };
}

impl TransactionRow for OpenRow {
    ghost number = { λ r. r.open_request.number };

    ghost key = { λ r. r.open_request.key };

    ghost ended = { λ t r. become (ended t r.open_request) r };

    fn number(&self) -> u64 {
        self.request.open_request.number
    }

    fn key(&self) -> &TransactionKey {
        self.request.open_request.key.get()
    }

    fn end(&mut self, transaction: Transaction) {
        ending::end(&mut self.request, transaction);
    }
}

//! What a configured server is asked: what a message is that came in, and what its rules decide.
//! What else it judges of a request is in `question`, `registration` and `targeting`.
ghost use Rattle.std.specs.Prelude.{◌≡◌, IfOk};
ghost use Rattle.model_verdict.specs.Verdict.{answer_of, minute_on};
ghost use Rattle.sip_verdict.specs.Incoming.{Is};

use crate::copies::{copy_addresses, copy_hops};
use crate::incoming::Incoming;
use crate::reading::incoming_of;
use model_verdict::Question;
use model_verdict::state::Server;
use sip_edit::OwnVias;
use sip_hops::Hops;
use sip_message_form::View;
use sip_policy::{Rules, Ruling};
use std::alloc::{AllocError, Global};
use std::marker::Model;

/// A configured server with its rules and its tables of addresses, by which it judges requests, and with its Vias, by which it
/// knows responses. Seen as the server: rules, tables and Vias are those that it was configured with.
pub struct Judge<R: Rules> {
    server: Server,
    rules: R,
    hops: Hops,
    /// Its Vias, by which those on top of responses are known.
    own_vias: OwnVias,
}

/// Written out, so that it is proved once and not wherever one is dropped.
impl<R: Rules> Drop for Judge<R> {
    fn drop(self) {
        let Judge {
            server: _,
            rules: _,
            hops: _,
            own_vias: _,
        } = self;
    }
}

impl<R: Rules> Model for Judge<R> {
    ghost use Rattle.std.specs.Prelude.{◌≡◌};
    ghost use Rattle.sip_verdict.specs.Judge.{IsConfigured};
    ghost use Rattle.model_verdict.specs.state.declared.server.Server.{Server};

    ghost Value = { Server };

    ghost view = { λ j. j.server };

    ghost invariant = { λ j. IsConfigured j.server.config (R.rules_of j.rules) (R.users_of j.rules) (R.domains_of j.rules) j.hops
        × (j.own_vias ≡ j.server.config.own) };
}

impl<R: Rules> Judge<R> {
    /// The judge of a server. `AllocError` is the only refusal.
    pub fn new(alloc: Global, server: Server) -> Result<Self, AllocError>
        ensures { IfOk result (λ judge. judge ≡ server) }
    {
        let config = &server.config;
        let Ok(rules) = R::new(alloc, &config.rules, &config.users, &config.own.domains) else {
            return Err(AllocError);
        };
        let addresses = copy_addresses(alloc, config.addresses.as_slice())?;
        let hops = copy_hops(alloc, config.hops.as_slice())?;
        let Ok(hops) = Hops::new(alloc, addresses, hops) else {
            return Err(AllocError);
        };
        let own_vias = OwnVias::of(alloc, &config.own, server.word)?;
        Ok(Judge {
            server,
            rules,
            hops,
            own_vias,
        })
    }

    /// The server.
    pub fn server(&self) -> &Server
        ensures { result.now ≡ self.now }
    {
        &self.server
    }

    /// Its tables of addresses.
    pub fn hops(&self) -> &Hops
        ensures addresses { result.now.addresses ≡ self.now.config.addresses }
        ensures hops { result.now.hops ≡ self.now.config.hops }
    {
        &self.hops
    }

    /// What a message is that came in, of whose body fewer bytes may have come than its length says: what finds the request or
    /// the branch that it belongs to, or nothing (RFC 3261 8.1.1.7, 16.7 step 1, 17.1.3, 17.2.3, 18.1.2, 18.3). A response is
    /// dropped whose body is short, whose top Via isn't this server's or has no branch, or that hasn't one CSeq; a request
    /// without a key. `AllocError` is the only refusal.
    pub fn incoming<'v>(
        &self,
        alloc: Global,
        message: &'v View<'_>,
        short: bool,
    ) -> Result<Incoming<'v>, AllocError>
        ensures { IfOk result (Is self.now.config.own message.now short) }
    {
        incoming_of(alloc, &self.own_vias, message, short)
    }

    /// What the first rule that applies decides, with the minute that is recorded of it. Takes no memory.
    pub fn ruling(&self, question: &Question<'_>) -> Ruling
        ensures decision { result.decision ≡ answer_of self.now question.now }
        ensures minute { result.minute ≡ minute_on self.now question.now }
    {
        match question.proof.name() {
            Some(name) => self.rules.decide(
                name,
                &question.operation,
                &question.target,
                question.minute,
            ),
            None => {
                self.rules
                    .decide_unproven(&question.operation, &question.target, question.minute)
            }
        }
    }
}

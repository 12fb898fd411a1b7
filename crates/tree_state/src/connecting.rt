//! How connections get their sessions.

ghost use Rattle.std.specs.Prelude.{◌≡◌, ◌<ℤ◌, ◌-◌, ◌^◌, [], ◌∷◌, pos, IfOk, OnErr};
ghost use Rattle.tree_state.specs.State.{State};
ghost use Rattle.tree_state.specs.Changes.{Naming};
ghost use Rattle.tree_state.specs.Step.{connects, given_to, answer_connect as ConnectAnswer};
ghost use Rattle.tree_state.specs.Trees.{Means, Stays, Does, CanConnect};

use crate::held::Held;
use crate::message::{Message, Output, Outputs};
use crate::session::Given;
use jute_core::{Bytes, Memory};
use std::alloc::Global;
use zk_records::{ConnectRequest, ConnectResponse};

impl Held {
    // A connect request: no session, a live one that moves, or a new one.
    pub(crate) fn connect(
        &mut self,
        alloc: Global,
        now: i64,
        connection: u32,
        asked: &ConnectRequest,
        fresh: i64,
        password: [u8; 16],
    ) -> Result<Outputs, Memory>
        requires last { self.old.last <ℤ pos (2 ^ 63 - 1) }
        ensures step { IfOk result (λ outputs. (naming : Naming) (s : State) → Means self.old s → CanConnect s connection fresh
            → Does naming s (connects connection asked.now (given_to s.sessions asked.now fresh password) now) self.new outputs) }
        ensures memory { OnErr result (Stays self.old self.new) }
    {
        let given = self.sessions.given(asked, fresh, password);
        let outputs = answer_connect(alloc, connection, asked, &given)?;
        if given.session == 0 {
            return Ok(outputs);
        }
        if self.sessions.is_live(given.session) {
            self.sessions.move_to(&given, now, connection)?;
        } else {
            self.sessions.open(alloc, &given, now, connection)?;
        }
        self.last += 1;
        Ok(outputs)
    }
}

// The answer to a connect request, in its form.
fn answer_connect(
    alloc: Global,
    connection: u32,
    asked: &ConnectRequest,
    given: &Given,
) -> Result<Outputs, Memory>
    ensures { IfOk result (λ outputs. outputs ≡ ConnectAnswer connection asked.now given.now ∷ []) }
{
    let password = Some(Bytes::copy_of(alloc, given.password.as_slice())?);
    let response = ConnectResponse {
        protocol: 0,
        timeout: given.timeout,
        session: given.session,
        password,
        read_only: asked.read_only.and(Some(false)),
    };
    let mut outputs = Vec::new(alloc);
    outputs.push(Output {
        connection,
        message: Message::Connected(response),
    })?;
    Ok(Outputs::of(outputs))
}

//! A station: one output, its clients, and their steps one after another.

ghost use Rattle.std.specs.Prelude.{◌≡◌, ◌+◌, ◌-◌, ◌^◌, ◌≤◌, ◌<◌, length, option_map, IsTrue, IsOk, IfOk, IfSome, OnOk, OnErr, replicate, None};
ghost use Rattle.dd_log.specs.Desk.{finds_slot};
ghost use Rattle.dd_log.specs.History.{allowed, desk, last_step};
ghost use Rattle.dd_log.specs.declared.events.TheConstants.{MAX_CAPACITY};
ghost use Rattle.dd_dup.specs.Reply.{IsBounded};
ghost use Rattle.dd_calls.specs.declared.steps.TheConstants.{MAX_CLIENTS};
ghost use Rattle.dd_station.specs.Run.{draw_answer, draw_history};

use crate::calls::answer_of;
use crate::closing::close;
use crate::opening::{Attempt, open};
use dd_calls::{Answer, ClientCall, DupCall, MAX_CLIENTS, Step};
use dd_dup::Dup;
use dd_log::{Draw, Entry, Event, Log, Spec};
use dd_table::may_close;
use std::alloc::{AllocError, Global};
use std::marker::Model;

/// One output with its clients. Contracts see the list, the clients' applications and memories,
/// and the number of steps so far.
///
/// At all times there are at most 16 clients, and a place for the duplicator of each. Each
/// duplicator that is there stands on the list: it was opened in it, its mark lies in it, and its
/// surface and the hidden points are the desk's at that mark. The slot that its opening took is the
/// one that is open for its client's application, lost or not, and no two clients with a duplicator
/// have one application. No entry of the list is of a later step than those so far.
#[derive(Debug, Drop)]
pub struct Station {
    alloc: Global,
    log: Log,
    clients: Vec<u32>,
    dups: Vec<Option<Dup>>,
    steps: u32,
}

impl Model for Station {
    ghost use Rattle.dd_station.specs.Run.{State};

    ghost Value = { State };

    ghost use Rattle.dd_station.specs.Station.{state, IsKept};

    ghost view = { λ s. state s.log s.clients.items s.dups.items s.steps };

    ghost invariant = { λ s. IsKept s.log s.clients.items s.dups.items s.steps };
}

/// Draws, or says why not. All memory is taken before the list changes.
fn draw(log: &mut Log, drawing: &Draw, step: u32) -> Result<Answer, AllocError>
    requires { last_step log.old.entries 0 < step }
    ensures answer { IfOk result (λ a. a ≡ draw_answer (allowed log.old drawing.now) (length log.old.entries + 1)) }
    ensures bounded { IfOk result (λ a. IsBounded a) }
    ensures list { OnOk result (log.new ≡ draw_history (allowed log.old drawing.now) log.old
        (record { actor = 0; step = step; event = Event.Draw drawing.now })) }
    ensures err { OnErr result (log.new ≡ log.old) }
{
    let event = Event::Draw(drawing.copy()?);
    let entry = log.len() + 1;
    match log.append(Entry {
        actor: 0,
        step,
        event,
    }) {
        Ok(()) => Ok(Answer::Entered { entry }),
        Err(cause) => Ok(Answer::NotDrawn(cause)),
    }
}

/// No duplicator for each of n clients.
fn none_of(alloc: Global, n: usize) -> Result<Vec<Option<Dup>>, AllocError>
    ensures { IfOk result (λ v. v.items ≡ replicate n None) }
{
    let mut dups = Vec::with_capacity(alloc, n)?;
    for _ in 0..n {
        dups.push(None)?;
    }
    Ok(dups)
}

impl Station {
    ghost use Rattle.dd_station.specs.Run.{start, next, draw_outcome, call_outcome, asking_outcome, memory_of, opening_outcome, closing_outcome, app_of, step_takes_memory, client_takes_memory, asks_memory};
    ghost use Rattle.dd_dup.specs.Reply.{slot_of};
    ghost use Rattle.dd_calls.specs.Calls.{IsOfClient};
    ghost use Rattle.dd_table.specs.Opening.{opening, closing};
    ghost use Rattle.dd_dup.specs.Stands.{Stands};

    /// A station with an empty list and no duplicators; client k, from 1, has the k-th application.
    pub fn start(alloc: Global, spec: Spec, clients: &[u32]) -> Result<Station, AllocError>
        requires some { 1 ≤ spec.capacity }
        requires few { spec.capacity ≤ MAX_CAPACITY }
        requires clients { length clients.now ≤ MAX_CLIENTS }
        ensures { IfOk result (λ station. station ≡ start spec clients.now) }
    {
        let dups = none_of(alloc, clients.len())?;
        let clients = Vec::from_slice(alloc, clients)?;
        let log = Log::start(alloc, spec)?;
        Ok(Station {
            alloc,
            log,
            clients,
            dups,
            steps: 0,
        })
    }

    fn draw(&mut self, drawing: &Draw) -> Result<Answer, AllocError>
        requires { self.old.steps < 2 ^ 32 - 1 }
        ensures answer { IfOk result (λ a. a ≡ (draw_outcome self.old drawing.now).0) }
        ensures bounded { IfOk result (λ a. IsBounded a) }
        ensures state { OnOk result (self.new ≡ (draw_outcome self.old drawing.now).1) }
        ensures err { OnErr result (self.new ≡ self.old) }
    {
        let step = self.steps + 1;
        let answer = draw(&mut self.log, drawing, step)?;
        self.steps = step;
        Ok(answer)
    }

    fn duplicate(&mut self, client: u32) -> Result<Answer, AllocError>
        requires from { 1 ≤ client }
        requires to { client ≤ length self.old.clients }
        requires count { self.old.steps < 2 ^ 32 - 1 }
        ensures answer { IfOk result (λ a. a ≡
            (opening_outcome (opening self.old.history (app_of self.old client)) self.old client).0) }
        ensures bounded { IfOk result (λ a. IsBounded a) }
        ensures state { OnOk result (self.new ≡
            (opening_outcome (opening self.old.history (app_of self.old client)) self.old client).1) }
        ensures err { OnErr result (self.new ≡ self.old) }
        ensures wants { OnErr result (IsOk (opening self.old.history (app_of self.old client))) }
    {
        let index = client as usize - 1;
        let app = self.clients[index];
        let step = self.steps + 1;
        let attempt = open(self.alloc, &mut self.log, app, client, step)?;
        self.steps = step;
        match attempt {
            Attempt::Made { entry, slot, dup } => {
                self.dups[index] = Some(dup);
                Ok(Answer::Opened { entry, slot })
            }
            Attempt::Refused(cause) => Ok(Answer::NotOpened(cause)),
        }
    }

    /// The slot of a client's duplicator, which is open; none where it has no duplicator.
    fn slot_of(&self, client: u32) -> Option<u32>
        requires from { 1 ≤ client }
        requires to { client ≤ length self.now.clients }
        ensures value { result ≡ slot_of (memory_of self.now client) self.now.history }
        ensures open { IfSome result (λ slot. IsTrue (finds_slot (desk self.now.history).slots (Event.Closed slot))) }
    {
        let index = client as usize - 1;
        match &self.dups[index] {
            None => None,
            Some(_) => self.log.slot_of(self.clients[index]),
        }
    }

    fn close(&mut self, client: u32) -> Answer
        requires from { 1 ≤ client }
        requires to { client ≤ length self.old.clients }
        requires count { self.old.steps < 2 ^ 32 - 1 }
        ensures answer { result ≡ (closing_outcome
            (closing self.old.history (slot_of (memory_of self.old client) self.old.history)) self.old client).0 }
        ensures bounded { IsBounded result }
        ensures state { self.new ≡ (closing_outcome
            (closing self.old.history (slot_of (memory_of self.old client) self.old.history)) self.old client).1 }
    {
        let index = client as usize - 1;
        let own = self.slot_of(client);
        let step = self.steps + 1;
        match may_close(&self.log, own) {
            Ok(slot) => {
                let entry = close(&mut self.log, slot, client, step);
                self.dups[index] = None;
                self.steps = step;
                Answer::Closed { entry }
            }
            Err(cause) => {
                self.steps = step;
                Answer::NotClosed(cause)
            }
        }
    }

    fn ask(&mut self, client: u32, call: DupCall) -> Result<Answer, AllocError>
        requires from { 1 ≤ client }
        requires to { client ≤ length self.old.clients }
        requires count { self.old.steps < 2 ^ 32 - 1 }
        ensures answer { IfOk result (λ a. a ≡ (asking_outcome self.old client call).0) }
        ensures bounded { IfOk result (λ a. IsBounded a) }
        ensures state { OnOk result (self.new ≡ (asking_outcome self.old client call).1) }
        ensures err { OnErr result (self.new ≡ self.old) }
        ensures wants { OnErr result (IsTrue (asks_memory self.old client call)) }
    {
        let index = client as usize - 1;
        let answer = answer_of(&mut self.dups[index], &self.log, call)?;
        self.steps += 1;
        Ok(answer)
    }

    /// Does one step, which is the next of the run. Want of memory changes nothing, and the step
    /// isn't counted; it comes only where the step takes memory, which a closing or a release never does.
    #[tactic(auto, unfolding(crate::specs::Run::next, crate::specs::Run::step_takes_memory))]
    pub fn step(&mut self, step: &Step) -> Result<Answer, AllocError>
        requires client { IsOfClient (length self.old.clients) step.now }
        requires count { self.old.steps < 2 ^ 32 - 1 }
        ensures answer { IfOk result (λ a. a ≡ (next self.old step.now).0) }
        ensures bounded { IfOk result (λ a. IsBounded a) }
        ensures state { OnOk result (self.new ≡ (next self.old step.now).1) }
        ensures err { OnErr result (self.new ≡ self.old) }
        ensures wants { OnErr result (IsTrue (step_takes_memory self.old step.now)) }
    {
        match step {
            Step::Draw(drawing) => self.draw(drawing),
            Step::Call { client, call } => self.call(*client, *call),
        }
    }

    fn call(&mut self, client: u32, call: ClientCall) -> Result<Answer, AllocError>
        requires from { 1 ≤ client }
        requires to { client ≤ length self.old.clients }
        requires count { self.old.steps < 2 ^ 32 - 1 }
        ensures answer { IfOk result (λ a. a ≡ (call_outcome self.old client call).0) }
        ensures bounded { IfOk result (λ a. IsBounded a) }
        ensures state { OnOk result (self.new ≡ (call_outcome self.old client call).1) }
        ensures err { OnErr result (self.new ≡ self.old) }
        ensures wants { OnErr result (IsTrue (client_takes_memory self.old client call)) }
    {
        match call {
            ClientCall::Duplicate => self.duplicate(client),
            ClientCall::Close => Ok(self.close(client)),
            ClientCall::Acquire { .. } => self.ask(client, DupCall::Acquire),
            ClientCall::Release => self.ask(client, DupCall::Release),
            ClientCall::Moves { buffer } => self.ask(client, DupCall::Moves { buffer }),
            ClientCall::Dirty { buffer } => self.ask(client, DupCall::Dirty { buffer }),
            ClientCall::Shape { buffer } => self.ask(client, DupCall::Shape { buffer }),
            ClientCall::Surface => self.ask(client, DupCall::Surface),
            ClientCall::Desc => self.ask(client, DupCall::Desc),
        }
    }

    /// A client's duplicator, which stands on the list; none where it has none.
    pub fn dup(&self, client: u32) -> Option<&Dup>
        requires from { 1 ≤ client }
        requires to { client ≤ length self.now.clients }
        ensures memory { option_map (λ d. d.now.memory) result ≡ memory_of self.now client }
        ensures stands { IfSome result (λ d. Stands d.now self.now.history) }
    {
        self.dups[client as usize - 1].as_ref()
    }

    /// The list so far.
    pub fn log(&self) -> &Log
        ensures { result.now ≡ self.now.history }
    {
        &self.log
    }
}

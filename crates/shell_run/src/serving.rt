// A script's steps, one after another.
ghost use Rattle.std.specs.Prelude.{◌≡◌, ◌⊎◌, ℕ, ◌+◌, ◌-◌, ◌^◌, ◌<◌, ◌≤◌, List, [], ◌++◌, ◌||◌, ◌∷◌, min, true, false};
ghost use Rattle.std.specs.Prelude.{length, IfOk, IfErr, OnOk, OnErr, IsErrOf, is_ok, IfSome, IfNone};
ghost use Rattle.disk_trait.specs.Device.{Rose};
ghost use Rattle.shell_script.specs.ReplyView.{reply};
ghost use Rattle.shell_script.specs.StepView.{step as shown};
ghost use Rattle.ts_config.specs.Known.{first_known};
ghost use Rattle.shell_run.specs.Inner.Serving.{HasTurned, Served, Passed, HasRunSteps};
ghost use Rattle.shell_run.specs.Outcomes.{is_refusal};
ghost use Rattle.engine.specs.Answers.{IsSession};
ghost use Rattle.engine.specs.Db.{IsUp, disk_of};
ghost use Rattle.shell_run.specs.declared.error.Stop.TheVariants.{SinkFault, OutOfMemory};

use crate::answers::answer;
use crate::defining::define;
use crate::error::Stop;
use crate::sending::{flush, put_reply};
use crate::statement_counts::StatementCounts;
use disk_trait::{Disk, Sink};
use engine::{Db, Gate, Pass, histories_are_lawful, opens_to_one};
use shell_script::{Refusal, Reply, Step, read_line, read_opening_line, steps};
use std::alloc::{AllocError, Global};
use ts_config::Configs;

/// The state of a run between two steps.
#[derive(Drop)]
pub struct RunState<D: Disk> {
    /// The store.
    pub store: Db<D>,
    /// The driver's pass.
    pub pass: Pass,
    /// What is defined.
    pub configs: Configs,
    /// The text that is not yet written.
    pub waiting: Vec<u8>,
    /// Whether a reply was a refusal.
    pub refused: bool,
    /// The statements of each session so far.
    pub statements: StatementCounts,
}

/// Whether the reply is a refusal.
fn is_refused(answer: &Reply) -> bool
    ensures { result ≡ is_refusal (reply answer.now) }
{
    matches!(answer, Reply::Refused(_))
}

/// What a step is answered, and its session. Nothing is done where memory runs out.
fn turn<D: Disk, G: Gate>(
    alloc: Global,
    gate: &G,
    state: &mut RunState<D>,
    step: Step<'_>,
) -> Result<(u8, Reply), AllocError>
    requires session { IsSession state.old.store state.old.pass }
    ensures session { IsSession state.new.store state.new.pass }
    ensures room { state.new.pass.room ≡ state.old.pass.room }
    ensures turned { IfOk result
        (λ r. HasTurned D.Disk (shown step.entry) state.old state.new r.0 (reply r.1)) }
    ensures short { OnErr result (state.new ≡ state.old) }
    ensures waiting { state.new.waiting ≡ state.old.waiting }
    ensures refused { state.new.refused ≡ state.old.refused }
    ensures counts { D.fault_count (disk_of state.old.store) ≤ D.fault_count (disk_of state.new.store) }
{
    match step {
        Step::Single(line) => {
            let said = read_line(alloc, line.bytes)?;
            state.statements.pass(gate, said.session);
            let reply = answer(
                alloc,
                &state.configs,
                &mut state.store,
                &mut state.pass,
                line.number,
                said.statement,
            );
            Ok((said.session, reply))
        }
        Step::Definition(line, body) => match read_opening_line(line.bytes) {
            Some(head) => Ok((
                0,
                define(alloc, &mut state.configs, line.number, head, body),
            )),
            None => Ok((0, Reply::Refused(Refusal::NoStatement(line.number)))),
        },
        Step::Stray(line) => Ok((0, Reply::Refused(Refusal::NoStatement(line.number)))),
    }
}

#[tactic(auto, using(crate::proofs::Streams::puts_start))]
/// One step.
fn serve_step<K: Sink, D: Disk, G: Gate>(
    alloc: Global,
    gate: &G,
    state: &mut RunState<D>,
    out: &mut K,
    step: Step<'_>,
) -> Result<(), Stop>
    requires session { IsSession state.old.store state.old.pass }
    ensures session { IsSession state.new.store state.new.pass }
    ensures room { state.new.pass.room ≡ state.old.pass.room }
    ensures served { Served D.Disk (shown step.entry) state.old state.new (K.taken out.old)
        (K.taken out.new) (is_ok result)
        ⊎ Passed state.old state.new (K.taken out.old) (K.taken out.new) (is_ok result) }
    ensures later { K.fault_count out.old ≤ K.fault_count out.new }
    ensures error { IfErr result (λ e. (e ≡ SinkFault) ⊎ (e ≡ OutOfMemory)) }
    ensures fault { IsErrOf result SinkFault
        → Rose (K.fault_count out.old) (K.fault_count out.new) }
    ensures counts { D.fault_count (disk_of state.old.store) ≤ D.fault_count (disk_of state.new.store) }
{
    let (session, reply) = turn(alloc, gate, state, step)?;
    state.refused |= is_refused(&reply);
    put_reply(alloc, out, &mut state.waiting, session, &reply)
}

/// The steps of a script, one after another: whether a reply was a refusal.
fn serve_steps<K: Sink, D: Disk, G: Gate>(
    alloc: Global,
    gate: &G,
    out: &mut K,
    state: &mut RunState<D>,
    text: &[u8],
) -> Result<bool, Stop>
    requires up { IsUp state.old.store }
    requires session { IsSession state.old.store state.old.pass }
    requires first { state.old.configs ≡ first_known }
    requires fresh { (state.old.waiting.items ≡ []) × (state.old.refused ≡ false) }
    ensures session { IsSession state.new.store state.new.pass }
    ensures room { state.new.pass.room ≡ state.old.pass.room }
    ensures ran { HasRunSteps D.Disk text.now (K.taken out.old) (K.taken out.new) state.old.store
        state.old.pass (disk_of state.new.store) result }
    ensures counts { D.fault_count (disk_of state.old.store) ≤ D.fault_count (disk_of state.new.store) }
    ensures later { K.fault_count out.old ≤ K.fault_count out.new }
    ensures error { IfErr result (λ e. (e ≡ SinkFault) ⊎ (e ≡ OutOfMemory)) }
    ensures fault { IsErrOf result SinkFault
        → Rose (K.fault_count out.old) (K.fault_count out.new) }
{
    opens_to_one();
    histories_are_lawful::<D>();
    for step in steps(text) {
        if let Err(stop) = serve_step(alloc, gate, state, out, step) {
            return Err(stop);
        }
    }
    if let Err(stop) = flush(out, &mut state.waiting) {
        return Err(stop);
    }
    Ok(state.refused)
}

/// The steps of a script, from the first on: the device as they leave it, and whether a reply was a
/// refusal.
pub fn run_steps<K: Sink, D: Disk, G: Gate>(
    alloc: Global,
    gate: &G,
    out: &mut K,
    store: Db<D>,
    pass: Pass,
    configs: Configs,
    text: &[u8],
) -> (D, Result<bool, Stop>)
    requires up { IsUp store }
    requires session { IsSession store pass }
    requires room { pass.room ≡ 16 }
    requires first { configs ≡ first_known }
    ensures ran { HasRunSteps D.Disk text.now (K.taken out.old) (K.taken out.new) store pass result.0
        result.1 }
    ensures counts { D.fault_count (disk_of store) ≤ D.fault_count result.0 }
    ensures later { K.fault_count out.old ≤ K.fault_count out.new }
    ensures error { IfErr result.1 (λ e. (e ≡ SinkFault) ⊎ (e ≡ OutOfMemory)) }
    ensures fault { IsErrOf result.1 SinkFault
        → Rose (K.fault_count out.old) (K.fault_count out.new) }
{
    let mut state = RunState {
        store,
        pass,
        configs,
        waiting: Vec::new(alloc),
        refused: false,
        statements: StatementCounts::new(),
    };
    let ran = serve_steps(alloc, gate, out, &mut state, text);
    let RunState { store, pass, .. } = state;
    (store.close(pass), ran)
}

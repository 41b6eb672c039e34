//! Serving the site of a site file: the file, and the exit statuses of faults.

ghost use Rattle.std.specs.Prelude.{◌≡◌, IfOk, IfSome, IsSomeAnd, option_map};
ghost use Rattle.dmr_trunk.specs.Replay.{IsPlanned, IsStatus};
ghost use Rattle.dmr_trunk.specs.Served.{IsServedAgain};

use crate::lock::InUse;
use crate::not_served::NotServed;
use crate::notes::Notes;
use crate::restart::read_registered;
use crate::script::Script;
use crate::serve::{Remains, serve, serve_kept};
use crate::store::{Asked, Kept, STATE_DIRECTORY, Store};
use dmr_command::ServeFault;
use dmr_keeper::Forget;
use dmr_plan::Plan;
use dmr_replay::{FAULT, OK, ReplayFault, plan_of};
use log::Log;
use std::alloc::Global;
use std::io;
use std::io::Write;
use std::net::Net;
use std::sync::Wait;
use std::thread::Threads;
use std::time::Clock;

/// The plan of a site file, if the file could be read and is valid.
fn plan_in<'a>(
    alloc: Global,
    site_name: &'a str,
    site: Option<&[u8]>,
) -> Result<Plan, ReplayFault<'a>>
    ensures plan { IfOk result (λ _. IsPlanned (option_map (λ o. o.now) site.entry)) }
{
    plan_of(alloc, site.ok_or(ReplayFault::CannotRead(site_name))?)
}

/// Notes which version of the program serves which site file. Returns the notes, which were opened for this; `serve`
/// opens its own.
fn note_start<'a, R: Net + Log>(
    rt: &'a R,
    alloc: Global,
    site_name: &str,
    plan: &Plan,
) -> Result<Notes<'a, R>, NotServed> {
    let mut notes = Notes::new(rt, alloc)?;
    notes.note_start(site_name, plan.carrier().len());
    Ok(notes)
}

/// Asks a store which radios were registered before. Then serves the site of a plan with these, and with that store
/// ([`serve_kept`]).
fn serve_again<K, F, R>(
    rt: &R,
    alloc: Global,
    plan: Plan,
    terms: u32,
    mut store: K,
    script: Option<F>,
    notes: &mut Notes<'_, R>,
) -> Result<Remains<K>, NotServed>
where
    K: Store + Send + Drop,
    F: Script + Drop,
    R: Net + Log + Clock + Wait + Threads + Sync,
    ensures { IfOk result (IsServedAgain R K.reads K.cannot_read K.kept K.refuses K.wants plan
        store terms) }
{
    let radios = read_registered(rt, alloc, &mut store, notes);
    serve_kept(rt, alloc, plan, terms, store, radios.as_slice(), script)
}

/// Serves the site of a plan. If there is a store, it keeps the records, and the radios that were registered are so again
/// ([`serve_again`]); the store is returned. If there is a script, the site is recorded to it.
fn serve_asked<K, F, R>(
    rt: &R,
    alloc: Global,
    plan: Plan,
    terms: u32,
    store: Option<K>,
    script: Option<F>,
    notes: &mut Notes<'_, R>,
) -> Result<Option<Remains<K>>, ServeFault>
where
    K: Store + Send + Drop,
    F: Script + Drop,
    R: Net + Log + Clock + Wait + Threads + Sync,
    ensures { IfOk result (λ left. IfSome store (λ store. IsSomeAnd left
        (IsServedAgain R K.reads K.cannot_read K.kept K.refuses K.wants plan store terms))) }
{
    match store {
        Some(store) => { Ok(Some(serve_again(rt, alloc, plan, terms, store, script, notes)?)) }
        None => {
            match script {
                Some(script) => {
                    serve_kept(rt, alloc, plan, terms, Forget, &[], Some(script))?.into_result()?;
                }
                None => serve(rt, alloc, plan, terms)?,
            }
            Ok(None)
        }
    }
}

/// Notes the start, and why the folder of the records is not locked, if it is not. Then serves the site of a plan
/// ([`serve_asked`]).
fn serve_noted<K, F, R>(
    rt: &R,
    alloc: Global,
    site_name: &str,
    plan: Plan,
    terms: u32,
    store: Option<K>,
    script: Option<F>,
    unlocked: Option<io::Error>,
) -> Result<(), ServeFault>
where
    K: Store + Send + Drop,
    F: Script + Drop,
    R: Net + Log + Clock + Wait + Threads + Sync,
{
    let mut notes = note_start(rt, alloc, site_name, &plan)?;
    if let Some(error) = &unlocked {
        notes.not_locked(error);
    }
    match serve_asked(rt, alloc, plan, terms, store, script, &mut notes)? {
        Some(left) => left.into_result(),
        None => Ok(()),
    }
}

/// Locks the folder of the records, and serves the site of a plan. Returns the exit status. A fault is written to `err`:
/// also that another controller has locked the folder.
fn serve_plan<K, F, R, E>(
    rt: &R,
    alloc: Global,
    site_name: &str,
    plan: Plan,
    terms: u32,
    asked: Asked<'_, K, F>,
    err: &mut E,
) -> u8
where
    K: Store + Send + Drop,
    F: Script + Drop,
    R: Net + Log + Clock + Wait + Threads + Sync,
    E: Write,
    ensures status { IsStatus result }
{
    let Asked {
        store,
        script,
        mut lock,
    } = asked;
    let unlocked = match lock.take() {
        Ok(unlocked) => unlocked,
        Err(InUse) => {
            let _ = writeln!(
                err,
                "dmr_trunk: another controller uses the folder of {STATE_DIRECTORY}"
            );
            return FAULT;
        }
    };
    let served = serve_noted(rt, alloc, site_name, plan, terms, store, script, unlocked);
    drop(lock);
    match served {
        Ok(()) => OK,
        Err(fault) => {
            let _ = writeln!(err, "dmr_trunk: {fault}");
            fault.status()
        }
    }
}

/// Serves the site of a site file, and returns the exit status. `site` has the file's octets, or `None` if the file
/// could not be read; `site_name` is its name in a fault's text. `kept` says what is kept. A fault is written to `err`
/// as one line; an error of `err` is ignored.
pub fn serve_file<K, F, R, E>(
    rt: &R,
    alloc: Global,
    site_name: &str,
    site: Option<&[u8]>,
    terms: u32,
    kept: Kept<'_, K, F>,
    err: &mut E,
) -> u8
where
    K: Store + Send + Drop,
    F: Script + Drop,
    R: Net + Log + Clock + Wait + Threads + Sync,
    E: Write,
    ensures status { IsStatus result }
    // At status 0 the file has a plan.
    ensures ok { result ≡ OK → IsPlanned (option_map (λ o. o.now) site.entry) }
{
    let plan = match plan_in(alloc, site_name, site) {
        Ok(plan) => plan,
        Err(fault) => {
            let _ = writeln!(err, "dmr_trunk: {fault}");
            return fault.status();
        }
    };
    match kept.asked_for() {
        Ok(asked) => serve_plan(rt, alloc, site_name, plan, terms, asked, err),
        Err(variable) => {
            let _ = writeln!(err, "dmr_trunk: {variable} is not UTF-8");
            FAULT
        }
    }
}

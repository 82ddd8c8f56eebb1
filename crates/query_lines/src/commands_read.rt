//! JSON values read as commands.

ghost use Rattle.std.specs.Prelude.{◌≡◌, ◌≤◌, All, Err, IfOk, IfSome, None, Some, length, suc};
ghost use Rattle.serde_json.specs.View.{items_view, members_view, view};
ghost use Rattle.query_lines.specs.Objects.{each_item};
ghost use Rattle.query_lines.specs.Commands.{command_in, compare_in, content_in, copy_in, job_in, jobs_in, keep_in, load_in, named_ops, on_in, one_key_command, two_key_command};
ghost use Rattle.query_lines.specs.Weights.{members_weight, weight};
ghost use Rattle.query_lines.specs.WellFormed.{IsName, IsTextContent, IsWellFormed, IsWellFormedJob, IsWellFormedOp, line_limit};

use crate::fault::Fault;
use crate::lists::{bytes_of, names_of, units_of};
use crate::ops_read::ops_of;
use crate::values::{
    Members, has, into_list, into_object, into_text, keys, name_under, number_under, take, under,
};
use crate::{Bytes, Command, Content, JobLine, JobLines, Ops};
use serde_json::Value;
use std::alloc::Global;

/// How many jobs a batch may have.
const JOB_LIMIT: usize = 64;

/// What a load gives.
fn content_of(alloc: Global, members: Members) -> Result<Content, Fault>
    ensures ok { IfOk result (λ what. content_in (members_view members.entries) ≡ Some what) }
    ensures shape { result ≡ Err Fault.Shape → content_in (members_view members.entries) ≡ None }
    ensures well_formed { IfOk result IsTextContent }
{
    if has(&members, "text") {
        Ok(Content::Text(into_text(take(members, "text").ok_or(Fault::Shape)?)?))
    } else if has(&members, "bytes") {
        Ok(Content::Raw(bytes_of(alloc, under(&members, "bytes")?)?))
    } else if has(&members, "units") {
        Ok(Content::Units(units_of(alloc, under(&members, "units")?)?))
    } else {
        Ok(Content::Literal(number_under(&members, "literal")?))
    }
}

fn load_of(alloc: Global, members: Members) -> Result<Command, Fault>
    ensures ok { IfOk result (λ c. load_in (members_view members.entries) ≡ Some c) }
    ensures shape { result ≡ Err Fault.Shape → load_in (members_view members.entries) ≡ None }
    ensures well_formed { IfOk result (λ c. members_weight (members_view members.entries) ≤ line_limit → IsWellFormed c) }
{
    let name = name_under(alloc, &members, "load")?;
    let what = content_of(alloc, members)?;
    Ok(Command::Load { name, what })
}

fn copy_of(alloc: Global, members: &Members) -> Result<Command, Fault>
    ensures ok { IfOk result (λ c. copy_in (members_view members.now.entries) ≡ Some c) }
    ensures shape { result ≡ Err Fault.Shape → copy_in (members_view members.now.entries) ≡ None }
    ensures well_formed { IfOk result IsWellFormed }
{
    let to = name_under(alloc, members, "copy")?;
    let source = name_under(alloc, members, "from")?;
    Ok(Command::Copy { to, source })
}

fn compare_of(alloc: Global, members: &Members) -> Result<Command, Fault>
    ensures ok { IfOk result (λ c. compare_in (members_view members.now.entries) ≡ Some c) }
    ensures shape { result ≡ Err Fault.Shape → compare_in (members_view members.now.entries) ≡ None }
    ensures well_formed { IfOk result IsWellFormed }
{
    let (a, b) = names_of(alloc, under(members, "compare")?)?;
    Ok(Command::Compare { a, b })
}

/// A name and the ops on its text.
fn named_ops_of(alloc: Global, members: Members) -> Result<(Bytes, Ops), Fault>
    ensures ok { IfOk result (λ named. named_ops (members_view members.entries) ≡ Some named) }
    ensures shape { result ≡ Err Fault.Shape → named_ops (members_view members.entries) ≡ None }
    ensures well_formed { IfOk result (λ named. IsName named.0 × All IsWellFormedOp named.1) }
{
    let name = name_under(alloc, &members, "on")?;
    let ops = ops_of(alloc, take(members, "do").ok_or(Fault::Shape)?)?;
    Ok((name, ops))
}

fn on_of(alloc: Global, members: Members) -> Result<Command, Fault>
    ensures ok { IfOk result (λ c. on_in (members_view members.entries) ≡ Some c) }
    ensures shape { result ≡ Err Fault.Shape → on_in (members_view members.entries) ≡ None }
    ensures well_formed { IfOk result IsWellFormed }
{
    let (name, ops) = named_ops_of(alloc, members)?;
    Ok(Command::On { name, ops })
}

/// The name under which a job's text is kept: none where the job has two keys.
fn keep_of(alloc: Global, members: &Members) -> Result<Option<Bytes>, Fault>
    ensures ok { IfOk result (λ keep. keep_in (members_view members.now.entries) ≡ Some keep) }
    ensures shape { result ≡ Err Fault.Shape → keep_in (members_view members.now.entries) ≡ None }
    ensures well_formed { IfOk result (λ keep. IfSome keep IsName) }
{
    match keys(members) {
        2 => Ok(None),
        3 => Ok(Some(name_under(alloc, members, "keep")?)),
        _ => Err(Fault::Shape),
    }
}

fn job_of(alloc: Global, value: Value) -> Result<JobLine, Fault>
    ensures ok { IfOk result (λ job. job_in (view value) ≡ Some job) }
    ensures shape { result ≡ Err Fault.Shape → job_in (view value) ≡ None }
    ensures well_formed { IfOk result IsWellFormedJob }
{
    let members = into_object(value)?;
    let keep = keep_of(alloc, &members)?;
    let (name, ops) = named_ops_of(alloc, members)?;
    Ok(JobLine { name, ops, keep })
}

fn each_job(alloc: Global, items: Vec<Value>) -> Result<Vec<JobLine>, Fault>
    ensures ok { IfOk result (λ v. each_item job_in (items_view items.items) ≡ Some v.items) }
    ensures shape { result ≡ Err Fault.Shape → each_item job_in (items_view items.items) ≡ None }
    ensures well_formed { IfOk result (λ v. All IsWellFormedJob v.items) }
{
    let mut jobs = Vec::with_capacity(alloc, items.len())?;
    for item in items {
        jobs.push(job_of(alloc, item)?)?;
    }
    Ok(jobs)
}

fn jobs_of(alloc: Global, value: Value) -> Result<JobLines, Fault>
    ensures ok { IfOk result (λ jobs. jobs_in (view value) ≡ Some jobs) }
    ensures shape { result ≡ Err Fault.Shape → jobs_in (view value) ≡ None }
    ensures well_formed { IfOk result (λ jobs. (length jobs ≤ 64) × All IsWellFormedJob jobs) }
{
    let jobs = each_job(alloc, into_list(value)?)?;
    if jobs.len() > JOB_LIMIT {
        return Err(Fault::Shape);
    }
    Ok(JobLines::new(jobs))
}

fn one_key_command(alloc: Global, members: Members) -> Result<Command, Fault>
    ensures ok { IfOk result (λ c. one_key_command (members_view members.entries) ≡ Some c) }
    ensures shape { result ≡ Err Fault.Shape → one_key_command (members_view members.entries) ≡ None }
    ensures well_formed { IfOk result IsWellFormed }
{
    if has(&members, "drop") {
        let name = name_under(alloc, &members, "drop")?;
        Ok(Command::Drop { name })
    } else if has(&members, "compare") {
        compare_of(alloc, &members)
    } else {
        let jobs = jobs_of(alloc, take(members, "batch").ok_or(Fault::Shape)?)?;
        Ok(Command::Batch { jobs })
    }
}

fn two_key_command(alloc: Global, members: Members) -> Result<Command, Fault>
    ensures ok { IfOk result (λ c. two_key_command (members_view members.entries) ≡ Some c) }
    ensures shape { result ≡ Err Fault.Shape → two_key_command (members_view members.entries) ≡ None }
    ensures well_formed { IfOk result (λ c. members_weight (members_view members.entries) ≤ line_limit → IsWellFormed c) }
{
    if has(&members, "load") {
        load_of(alloc, members)
    } else if has(&members, "copy") {
        copy_of(alloc, &members)
    } else {
        on_of(alloc, members)
    }
}

/// The command of a row.
pub fn command_of(alloc: Global, value: Value) -> Result<Command, Fault>
    ensures ok { IfOk result (λ c. command_in (view value) ≡ Some c) }
    ensures shape { result ≡ Err Fault.Shape → command_in (view value) ≡ None }
    ensures well_formed { IfOk result (λ c. weight (view value) ≤ suc line_limit → IsWellFormed c) }
{
    let members = into_object(value)?;
    match keys(&members) {
        1 => one_key_command(alloc, members),
        2 => two_key_command(alloc, members),
        _ => Err(Fault::Shape),
    }
}

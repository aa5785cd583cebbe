ghost use Rattle.std.specs.Prelude.{◌≡◌, map, IfOk};
ghost use Rattle.serde_json.specs.View.{view};
ghost use Rattle.px_syntax.specs.ProgramTree.{program_tree};
ghost use Rattle.px_report.specs.Json as spec;

use crate::objects::{put_member, put_number, put_place, put_text};
use px_base::Mark;
use px_syntax::{Left, Program};
use px_terms::NoMemory;
use px_text_report::{Bug, Dropped, Report, kind_text, left_name, name_at, put_mark_text};
use serde_json::{Map, Value};
use std::alloc::Global;

/// A report on a program as one JSON object, compact, and a newline.
pub(crate) fn report_json(
    alloc: Global,
    program: &Program,
    report: &Report,
) -> Result<Vec<u8>, NoMemory>
    ensures text { IfOk result (λ v. v.items ≡ spec.report_json (program_tree program.now) report.now) }
    ensures reads_back { IfOk result (λ v. spec.ReadsAs v.items (spec.report_object (program_tree program.now) report.now)) }
{
    let whole = report_value(alloc, program, report)?;
    let mut out = whole.to_vec(alloc)?;
    out.push(b'\n')?;
    Ok(out)
}

// The object.
fn report_value(alloc: Global, program: &Program, report: &Report) -> Result<Value, NoMemory>
    ensures { IfOk result (λ v. view v ≡ spec.report_object (program_tree program.now) report.now) }
{
    let bugs = bug_list(alloc, program, report.bugs.as_slice())?;
    let dropped = dropped_list(alloc, program, report.dropped.as_slice())?;
    let left_out = left_list(alloc, program, report.left_out.as_slice())?;
    whole(alloc, bugs, dropped, left_out, report.procedures)
}

fn whole(
    alloc: Global,
    bugs: Value,
    dropped: Value,
    left_out: Value,
    procedures: u64,
) -> Result<Value, NoMemory>
    ensures { IfOk result (λ v. view v ≡ spec.whole_object (view bugs) (view dropped) (view left_out) procedures) }
{
    let mut object = Map::new(alloc);
    put_member(alloc, &mut object, "bugs", bugs)?;
    put_member(alloc, &mut object, "dropped", dropped)?;
    put_member(alloc, &mut object, "left_out", left_out)?;
    put_number(alloc, &mut object, "procedures", procedures)?;
    Ok(Value::Object(object))
}

fn bug_list(alloc: Global, program: &Program, bugs: &[Bug]) -> Result<Value, NoMemory>
    ensures { IfOk result (λ v. view v ≡ spec.json_list (map (spec.bug_object (program_tree program.now)) bugs.now)) }
{
    Ok(Value::Array(bug_values(alloc, program, bugs)?))
}

fn bug_values(alloc: Global, program: &Program, bugs: &[Bug]) -> Result<Vec<Value>, NoMemory>
    ensures { IfOk result (λ all. map view all.items ≡ map (spec.bug_object (program_tree program.now)) bugs.now) }
{
    let mut all = Vec::new(alloc);
    for bug in bugs {
        all.push(bug_value(alloc, program, bug)?)?;
    }
    Ok(all)
}

fn bug_value(alloc: Global, program: &Program, bug: &Bug) -> Result<Value, NoMemory>
    ensures { IfOk result (λ v. view v ≡ spec.bug_object (program_tree program.now) bug.now) }
{
    let trace = mark_list(alloc, program, bug.trace.as_slice())?;
    let procedure = name_at(program.names.as_slice(), bug.proc.0 as usize);
    let mut object = Map::new(alloc);
    put_place(alloc, &mut object, program.files.as_slice(), bug.site)?;
    put_text(alloc, &mut object, "kind", kind_text(bug.kind).as_bytes())?;
    put_text(alloc, &mut object, "procedure", procedure)?;
    put_member(alloc, &mut object, "trace", trace)?;
    Ok(Value::Object(object))
}

fn mark_list(alloc: Global, program: &Program, trace: &[Mark]) -> Result<Value, NoMemory>
    ensures { IfOk result (λ v. view v ≡ spec.json_list (map (spec.mark_object (program_tree program.now)) trace.now)) }
{
    Ok(Value::Array(mark_values(alloc, program, trace)?))
}

fn mark_values(alloc: Global, program: &Program, trace: &[Mark]) -> Result<Vec<Value>, NoMemory>
    ensures { IfOk result (λ all. map view all.items ≡ map (spec.mark_object (program_tree program.now)) trace.now) }
{
    let mut all = Vec::new(alloc);
    for mark in trace {
        all.push(mark_value(alloc, program, *mark)?)?;
    }
    Ok(all)
}

fn mark_value(alloc: Global, program: &Program, mark: Mark) -> Result<Value, NoMemory>
    ensures { IfOk result (λ v. view v ≡ spec.mark_object (program_tree program.now) mark) }
{
    let mut text = Vec::new(alloc);
    put_mark_text(&mut text, program.names.as_slice(), mark.kind)?;
    let mut object = Map::new(alloc);
    put_place(alloc, &mut object, program.files.as_slice(), mark.site)?;
    put_text(alloc, &mut object, "mark", &text)?;
    Ok(Value::Object(object))
}

fn dropped_list(alloc: Global, program: &Program, dropped: &[Dropped]) -> Result<Value, NoMemory>
    ensures { IfOk result (λ v. view v ≡ spec.json_list (map (spec.dropped_object (program_tree program.now)) dropped.now)) }
{
    Ok(Value::Array(dropped_values(alloc, program, dropped)?))
}

fn dropped_values(
    alloc: Global,
    program: &Program,
    dropped: &[Dropped],
) -> Result<Vec<Value>, NoMemory>
    ensures { IfOk result (λ all. map view all.items ≡ map (spec.dropped_object (program_tree program.now)) dropped.now) }
{
    let mut all = Vec::new(alloc);
    for one in dropped {
        all.push(dropped_value(alloc, program, one)?)?;
    }
    Ok(all)
}

fn dropped_value(alloc: Global, program: &Program, one: &Dropped) -> Result<Value, NoMemory>
    ensures { IfOk result (λ v. view v ≡ spec.dropped_object (program_tree program.now) one.now) }
{
    let procedure = name_at(program.names.as_slice(), one.proc.0 as usize);
    let mut object = Map::new(alloc);
    put_text(alloc, &mut object, "cause", one.cause.as_slice())?;
    put_number(alloc, &mut object, "count", one.count)?;
    put_text(alloc, &mut object, "procedure", procedure)?;
    Ok(Value::Object(object))
}

fn left_list(alloc: Global, program: &Program, left: &[Left]) -> Result<Value, NoMemory>
    ensures { IfOk result (λ v. view v ≡ spec.json_list (map (spec.left_object (program_tree program.now)) left.now)) }
{
    Ok(Value::Array(left_values(alloc, program, left)?))
}

fn left_values(alloc: Global, program: &Program, left: &[Left]) -> Result<Vec<Value>, NoMemory>
    ensures { IfOk result (λ all. map view all.items ≡ map (spec.left_object (program_tree program.now)) left.now) }
{
    let mut all = Vec::new(alloc);
    for item in left {
        all.push(left_value(alloc, program, item)?)?;
    }
    Ok(all)
}

fn left_value(alloc: Global, program: &Program, item: &Left) -> Result<Value, NoMemory>
    ensures { IfOk result (λ v. view v ≡ spec.left_object (program_tree program.now) item.now) }
{
    let name = left_name(program.names.as_slice(), item.proc);
    let mut object = Map::new(alloc);
    put_place(alloc, &mut object, program.files.as_slice(), item.site)?;
    put_text(alloc, &mut object, "name", name)?;
    put_text(alloc, &mut object, "word", item.word.as_slice())?;
    Ok(Value::Object(object))
}

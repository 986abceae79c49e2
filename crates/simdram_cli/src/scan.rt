//! The command `scan`.

ghost use Rattle.std.specs.Prelude.{◌≡◌, ◌*◌, length, IfOk, IfErr};
ghost use Rattle.dram_model.specs.View.{ChipView};
ghost use Rattle.host_edge.specs.Views.{FolderView};
ghost use Rattle.object_alloc.specs.Exact.{found_in};
ghost use Rattle.object_alloc.specs.Reading.{rows_size};
ghost use Rattle.object_steps.specs.Objects.{LiesOn};
ghost use Rattle.scan_model.specs.Queries as model;
ghost use Rattle.scan_query.specs.Answers.{IsScan, answer_of};
ghost use Rattle.scan_query.specs.Queries.{IsNodesOf, nodes_in};
ghost use Rattle.cli_model.specs.World.{world};
ghost use Rattle.simdram_cli.specs.Inputs.{image_found};
ghost use Rattle.simdram_cli.specs.Queries.{query_in};
ghost use Rattle.cli_model.specs.Reads.{NotRead};
ghost use Rattle.cli_model.specs.Runs.{Runs};
ghost use Rattle.simdram_cli.specs.Plans.{said_of};
ghost use Rattle.simdram_cli.specs.Scan.{AnswerGoes, DoesScans, IsScanFile, QueryRead, answer_plan};
ghost use Rattle.simdram_cli.specs.Scan.{count_line, scan_image_plan, scan_plan};
ghost use Rattle.simdram_cli.specs.Stops.{reason_of};

use crate::completion::Completion;
use crate::job::image_stop;
use crate::lines::{Line, add, add_number};
use crate::load::load;
use crate::perform::open;
use crate::run::{compile, open_own};
use crate::stop::Stop;
use crate::words::{IMAGE_MAX, QUERY_MAX, ScanNames};
use arrayvec::ArrayVec;
use bit_rows::NoMemory;
use dram_model::Dram;
use host_edge::{Folder, Sink};
use object_alloc::{Image, read_image};
use scan_query::{Query, QueryNo, ScanReply, parse_query, run_query, scan_ops};
use std::alloc::Global;
use uprog_bin::ProgView;
use uprog_code::Counts;

/// Loads QUERY, with its query.
fn load_query<'a, F: Folder>(name: &'a str, files: &mut F, alloc: Global) -> Result<Query, Stop<'a>>
    ensures kept { (F.view files.new).holds ≡ (F.view files.old).holds }
    ensures read { IfOk result (λ query. QueryRead name.now (nodes_in query) (F.view files.old)
        (F.view files.new)) }
    ensures not_read { IfErr result (λ stop. NotRead query_in name.now QUERY_MAX (reason_of stop)
        (F.view files.old) (F.view files.new)) }
{
    let text = load(name, QUERY_MAX, files, alloc)?;
    match parse_query(&text, alloc) {
        Ok(query) => Ok(query),
        Err(QueryNo::Fault(fault)) => Err(Stop::BadQuery(fault)),
        Err(QueryNo::NoMemory) => Err(Stop::NoMemory),
    }
}

/// The file of a program that does the operations of scans.
fn scan_file(alloc: Global) -> Result<Vec<u8>, NoMemory>
    ensures { IfOk result (λ file. IsScanFile file.items) }
{
    let ops = scan_ops(alloc)?;
    let (_, file) = compile(&ops, alloc)?;
    Ok(file)
}

/// The words of a bank's rows of 64 bits.
fn make_stage(words: u16, alloc: Global) -> Result<Vec<u64>, NoMemory>
    ensures { IfOk result (λ stage. length stage.items ≡ 64 * words) }
{
    let stage = vec![in alloc; 0u64; 64 * usize::from(words)]?;
    Ok(stage)
}

/// Opens the machine on an image, and does a query on it.
fn ask<'a, D: Dram>(
    query: &Query,
    prog: ProgView<'_>,
    image: Image<'_>,
    chip: &mut D,
    alloc: Global,
) -> Result<ScanReply, Stop<'a>>
    requires lies { LiesOn image.geometry image.table }
    requires rows { length image.rows.now ≡ rows_size image.geometry }
    requires query { IsScan (nodes_in query.now) }
    requires does { DoesScans prog.programs }
    ensures borrow { D.borrow chip.new ≡ D.borrow chip.old }
    ensures goes { (files : FolderView) (sink : _) (t : model.Query)
        → IsNodesOf t (nodes_in query.now)
        → AnswerGoes prog.entry.programs t (image_found (found_in image.entry)) result
        (world files sink (D.view chip.old)) (world files sink (D.view chip.new)) }
{
    let Ok(mut stage) = make_stage(image.geometry.words, alloc) else {
        return Err(Stop::NoMemory);
    };
    let mut machine = open(prog, image, chip, alloc)?;
    match run_query(&mut machine, query, chip, &mut stage) {
        Ok(reply) => Ok(reply),
        Err(_) => Err(Stop::ChipFailed),
    }
}

/// The line of how many elements were found.
fn count_line(found: u32, of: u32, counts: Counts) -> Line
    ensures { result.items ≡ count_line found of counts }
{
    let mut text = ArrayVec::new();
    add_number(&mut text, b"count ", u64::from(found));
    add_number(&mut text, b" of ", u64::from(of));
    add_number(&mut text, b" aap=", counts.aap);
    add_number(&mut text, b" ap=", counts.ap);
    add(&mut text, b"\n");
    text
}

/// Puts how many elements were found. A refusal is left to be reported.
fn put_answer<'a, S: Sink>(reply: ScanReply, out: &mut S) -> Result<Completion, Stop<'a>>
    ensures { (files : FolderView) (chip : ChipView)
        → Runs (answer_plan (λ view. Unit {0}) (answer_of reply))
        (world files (S.view out.old) chip) (world files (S.view out.new) chip)
        (said_of result) }
{
    match reply {
        ScanReply::Done { found, of, counts } => {
            let line = count_line(found, of, counts);
            if out.put(line.as_slice()).is_err() {
                return Err(Stop::PutFailed);
            }
            Ok(Completion::AllDone)
        }
        ScanReply::Refused(why, k) => Err(Stop::ScanRefused(why, k)),
    }
}

/// Loads IMAGE, and does a query on it.
fn scan_image<'a, F: Folder, S: Sink, D: Dram>(
    name: &'a str,
    query: &Query,
    files: &mut F,
    out: &mut S,
    chip: &mut D,
    alloc: Global,
) -> Result<Completion, Stop<'a>>
    requires query { IsScan (nodes_in query.now) }
    ensures borrow { D.borrow chip.new ≡ D.borrow chip.old }
    ensures kept { (F.view files.new).holds ≡ (F.view files.old).holds }
    ensures runs { (t : model.Query) → IsNodesOf t (nodes_in query.now)
        → Runs (scan_image_plan name.now t)
        (world (F.view files.old) (S.view out.old) (D.view chip.old))
        (world (F.view files.new) (S.view out.new) (D.view chip.new)) (said_of result) }
{
    let bytes = load(name, IMAGE_MAX, files, alloc)?;
    let image = match read_image(&bytes, alloc) {
        Ok(image) => image,
        Err(no) => return Err(image_stop(no)),
    };
    let Ok(file) = scan_file(alloc) else {
        return Err(Stop::NoMemory);
    };
    let reply = ask(query, open_own(&file), image, chip, alloc)?;
    put_answer(reply, out)
}

/// Puts how many elements of IMAGE meet QUERY, and by how many row commands.
pub(crate) fn scan<'a, F: Folder, S: Sink, D: Dram>(
    names: &ScanNames<'a>,
    files: &mut F,
    out: &mut S,
    chip: &mut D,
    alloc: Global,
) -> Result<Completion, Stop<'a>>
    ensures borrow { D.borrow chip.new ≡ D.borrow chip.old }
    ensures kept { (F.view files.new).holds ≡ (F.view files.old).holds }
    ensures runs { Runs (scan_plan names.now)
        (world (F.view files.old) (S.view out.old) (D.view chip.old))
        (world (F.view files.new) (S.view out.new) (D.view chip.new)) (said_of result) }
{
    let query = load_query(names.query, files, alloc)?;
    scan_image(names.image, &query, files, out, chip, alloc)
}

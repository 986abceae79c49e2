//! Why a command stops, its exit status and its last line.

ghost use Rattle.std.specs.Prelude.{OnOk, OnErr, ◌≡◌, ◌≤◌, ◌++◌, codes};
ghost use Rattle.host_edge.specs.Views.{Known, AppendsPart};
ghost use Rattle.faults.specs.Counts.{Rose};
ghost use Rattle.cli_model.specs.Status.{reason_status, reason_line};
ghost use Rattle.simdram_cli.specs.Inputs.{kind_word, ops_refusal, script_word, script_refusal};
ghost use Rattle.simdram_cli.specs.Inputs.{image_word, image_refusal};
ghost use Rattle.simdram_cli.specs.Programs.{prog_refusal, prog_word};
ghost use Rattle.simdram_cli.specs.Queries.{query_refusal, query_word, scan_refusal, scan_word};
ghost use Rattle.simdram_cli.specs.Flips.{flips_refusal, flips_word, name_refusal, table_refusal};
ghost use Rattle.simdram_cli.specs.Stops.{reason_of};
ghost use Rattle.simdram_cli.specs.Traces.{trace_refusal, trace_word};

use bbop_isa::{ScriptFault, ScriptKind};
use guard_model::{FlipsFault, FlipsKind};
use host_edge::{Failed, Sink};
use itoa::Buffer;
use object_alloc::{ImageFault, ImageKind};
use op_text::{OpsFault, OpsKind};
use scan_model::{QueryFault, QueryKind, ScanWhy};
use trace_model::{TraceFault, TraceKind};
use uprog_bin::{ProgFault, ProgKind};

/// Why a command stopped.
#[derive(Clone, Copy)]
pub enum Stop<'a> {
    CannotRead(&'a str),
    TooLong(&'a str),
    BadOps(OpsFault),
    BadProg(ProgFault),
    BadScript(ScriptFault),
    BadImage(ImageFault),
    BadQuery(QueryFault),
    ScanRefused(ScanWhy, u8),
    TraceFull,
    BadTrace(TraceFault),
    GeometryDiffers,
    GuardName(u32),
    GuardTable(u16),
    BadFlips(FlipsFault),
    NoMemory,
    CannotWrite(&'a str),
    PutFailed,
    ChipFailed,
}

/// The exit status.
pub fn status_of(stop: Stop<'_>) -> u8
    ensures { result ≡ reason_status (reason_of stop.entry) }
{
    match stop {
        Stop::CannotRead(_) => 2,
        Stop::CannotWrite(_) | Stop::PutFailed => 3,
        Stop::BadOps(_) => 4,
        Stop::BadProg(_) => 5,
        Stop::BadScript(_) => 6,
        Stop::BadImage(_) => 7,
        Stop::ChipFailed => 9,
        Stop::NoMemory => 10,
        Stop::TooLong(_) => 11,
        Stop::TraceFull => 12,
        Stop::BadTrace(_) => 13,
        Stop::GeometryDiffers => 14,
        Stop::BadQuery(_) => 15,
        Stop::ScanRefused(_, _) => 16,
        Stop::GuardName(_) | Stop::GuardTable(_) => 17,
        Stop::BadFlips(_) => 18,
    }
}

/// Puts three pieces, up to the first that fails.
pub(crate) fn put_three<S: Sink>(
    first: &[u8],
    second: &[u8],
    third: &[u8],
    out: &mut S,
) -> Result<(), Failed>
    ensures counts { (S.view out.old).faults ≤ (S.view out.new).faults }
    ensures sent { OnOk result (Known (λ before after. after
        ≡ before ++ (first.now ++ second.now ++ third.now)) (S.view out.old).sent
        (S.view out.new).sent) }
    ensures unfailed { OnOk result ((S.view out.new).faults ≡ (S.view out.old).faults) }
    ensures part { Known (AppendsPart (first.now ++ second.now ++ third.now)) (S.view out.old).sent
        (S.view out.new).sent }
    ensures failed { OnErr result (Rose (S.view out.old).faults (S.view out.new).faults) }
{
    out.put(first)?;
    out.put(second)?;
    out.put(third)
}

/// The end of the line of a text of operations that breaks this rule.
fn kind_end(kind: OpsKind) -> &'static [u8]
    ensures { result.now ≡ codes " " ++ kind_word kind ++ codes "\n" }
{
    match kind {
        OpsKind::Lex => b" lex\n",
        OpsKind::Syntax => b" syntax\n",
        OpsKind::BadName => b" bad_name\n",
        OpsKind::Twice => b" twice\n",
        OpsKind::Unknown => b" unknown\n",
        OpsKind::Kind => b" kind\n",
        OpsKind::NoResult => b" no_result\n",
        OpsKind::TooMany => b" too_many\n",
    }
}

/// Puts the line of a text of operations that breaks a rule.
fn tell_ops<S: Sink>(fault: OpsFault, out: &mut S) -> Result<(), Failed>
    ensures counts { (S.view out.old).faults ≤ (S.view out.new).faults }
    ensures sent { OnOk result (Known (λ before after. after ≡ before ++ ((ops_refusal fault).line))
        (S.view out.old).sent (S.view out.new).sent) }
    ensures part { Known (AppendsPart (ops_refusal fault).line) (S.view out.old).sent
        (S.view out.new).sent }
    ensures failed { OnErr result (Rose (S.view out.old).faults (S.view out.new).faults) }
{
    let mut buffer = Buffer::new();
    put_three(
        b"ops line ",
        buffer.format(fault.line).as_bytes(),
        kind_end(fault.kind),
        out,
    )
}

/// The end of the line of a program file that breaks this rule.
fn prog_end(kind: ProgKind) -> &'static [u8]
    ensures { result.now ≡ codes " " ++ prog_word kind ++ codes "\n" }
{
    match kind {
        ProgKind::Short => b" short\n",
        ProgKind::Magic => b" magic\n",
        ProgKind::Version => b" version\n",
        ProgKind::Directory => b" directory\n",
        ProgKind::Instruction => b" instruction\n",
        ProgKind::Target => b" target\n",
        ProgKind::Row => b" row\n",
        ProgKind::NoDone => b" no_done\n",
        ProgKind::Rest => b" rest\n",
    }
}

/// Puts the line of a program file that breaks a rule.
fn tell_prog<S: Sink>(fault: ProgFault, out: &mut S) -> Result<(), Failed>
    ensures counts { (S.view out.old).faults ≤ (S.view out.new).faults }
    ensures sent { OnOk result (Known (λ before after. after ≡ before
        ++ ((prog_refusal fault).line))
        (S.view out.old).sent (S.view out.new).sent) }
    ensures part { Known (AppendsPart (prog_refusal fault).line) (S.view out.old).sent
        (S.view out.new).sent }
    ensures failed { OnErr result (Rose (S.view out.old).faults (S.view out.new).faults) }
{
    let mut buffer = Buffer::new();
    put_three(
        b"program byte ",
        buffer.format(fault.at).as_bytes(),
        prog_end(fault.kind),
        out,
    )
}

/// The end of the line of a script that breaks this rule.
fn script_end(kind: ScriptKind) -> &'static [u8]
    ensures { result.now ≡ codes " " ++ script_word kind ++ codes "\n" }
{
    match kind {
        ScriptKind::Lex => b" lex\n",
        ScriptKind::Syntax => b" syntax\n",
        ScriptKind::BadName => b" bad_name\n",
        ScriptKind::BadNumber => b" bad_number\n",
    }
}

/// Puts the line of a script that breaks a rule.
fn tell_script<S: Sink>(fault: ScriptFault, out: &mut S) -> Result<(), Failed>
    ensures counts { (S.view out.old).faults ≤ (S.view out.new).faults }
    ensures sent { OnOk result (Known (λ before after. after
        ≡ before ++ ((script_refusal fault).line)) (S.view out.old).sent (S.view out.new).sent) }
    ensures part { Known (AppendsPart (script_refusal fault).line) (S.view out.old).sent
        (S.view out.new).sent }
    ensures failed { OnErr result (Rose (S.view out.old).faults (S.view out.new).faults) }
{
    let mut buffer = Buffer::new();
    put_three(
        b"script line ",
        buffer.format(fault.line).as_bytes(),
        script_end(fault.kind),
        out,
    )
}

/// The end of the line of an image file that breaks this rule.
fn image_end(kind: ImageKind) -> &'static [u8]
    ensures { result.now ≡ codes " " ++ image_word kind ++ codes "\n" }
{
    match kind {
        ImageKind::Short => b" short\n",
        ImageKind::Magic => b" magic\n",
        ImageKind::Version => b" version\n",
        ImageKind::Geometry => b" geometry\n",
        ImageKind::Object => b" object\n",
        ImageKind::Overlap => b" overlap\n",
        ImageKind::Rest => b" rest\n",
    }
}

/// Puts the line of an image file that breaks a rule.
fn tell_image<S: Sink>(fault: ImageFault, out: &mut S) -> Result<(), Failed>
    ensures counts { (S.view out.old).faults ≤ (S.view out.new).faults }
    ensures sent { OnOk result (Known (λ before after. after
        ≡ before ++ ((image_refusal fault).line)) (S.view out.old).sent (S.view out.new).sent) }
    ensures part { Known (AppendsPart (image_refusal fault).line) (S.view out.old).sent
        (S.view out.new).sent }
    ensures failed { OnErr result (Rose (S.view out.old).faults (S.view out.new).faults) }
{
    let mut buffer = Buffer::new();
    put_three(
        b"image byte ",
        buffer.format(fault.at).as_bytes(),
        image_end(fault.kind),
        out,
    )
}

/// The end of the line of a query text that breaks this rule.
fn query_end(kind: QueryKind) -> &'static [u8]
    ensures { result.now ≡ codes " " ++ query_word kind ++ codes "\n" }
{
    match kind {
        QueryKind::Lex => b" lex\n",
        QueryKind::Syntax => b" syntax\n",
        QueryKind::BadName => b" bad_name\n",
        QueryKind::BadNumber => b" bad_number\n",
        QueryKind::TooMany => b" too_many\n",
    }
}

/// Puts the line of a query text that breaks a rule.
fn tell_query<S: Sink>(fault: QueryFault, out: &mut S) -> Result<(), Failed>
    ensures counts { (S.view out.old).faults ≤ (S.view out.new).faults }
    ensures sent { OnOk result (Known (λ before after. after
        ≡ before ++ ((query_refusal fault).line)) (S.view out.old).sent (S.view out.new).sent) }
    ensures part { Known (AppendsPart (query_refusal fault).line) (S.view out.old).sent
        (S.view out.new).sent }
    ensures failed { OnErr result (Rose (S.view out.old).faults (S.view out.new).faults) }
{
    let mut buffer = Buffer::new();
    put_three(
        b"query line ",
        buffer.format(fault.line).as_bytes(),
        query_end(fault.kind),
        out,
    )
}

/// The front of the line of a query that is refused.
fn refused_front(why: ScanWhy) -> &'static [u8]
    ensures { result.now ≡ codes "query refused " ++ scan_word why ++ codes " " }
{
    match why {
        ScanWhy::NoObject => b"query refused no_object ",
        ScanWhy::Slice => b"query refused slice ",
        ScanWhy::Count => b"query refused count ",
        ScanWhy::Range => b"query refused range ",
        ScanWhy::TableFull => b"query refused table_full ",
        ScanWhy::NoRows => b"query refused no_rows ",
    }
}

/// Puts the line of a query that is refused.
fn tell_scan<S: Sink>(why: ScanWhy, k: u8, out: &mut S) -> Result<(), Failed>
    ensures counts { (S.view out.old).faults ≤ (S.view out.new).faults }
    ensures sent { OnOk result (Known (λ before after. after
        ≡ before ++ ((scan_refusal why k).line)) (S.view out.old).sent (S.view out.new).sent) }
    ensures part { Known (AppendsPart (scan_refusal why k).line) (S.view out.old).sent
        (S.view out.new).sent }
    ensures failed { OnErr result (Rose (S.view out.old).faults (S.view out.new).faults) }
{
    let mut buffer = Buffer::new();
    put_three(refused_front(why), buffer.format(k).as_bytes(), b"\n", out)
}

/// Puts the line of an instruction that names an object of more than 15 bytes.
fn tell_name<S: Sink>(k: u32, out: &mut S) -> Result<(), Failed>
    ensures counts { (S.view out.old).faults ≤ (S.view out.new).faults }
    ensures sent { OnOk result (Known (λ before after. after ≡ before ++ ((name_refusal k).line))
        (S.view out.old).sent (S.view out.new).sent) }
    ensures part { Known (AppendsPart (name_refusal k).line) (S.view out.old).sent
        (S.view out.new).sent }
    ensures failed { OnErr result (Rose (S.view out.old).faults (S.view out.new).faults) }
{
    let mut buffer = Buffer::new();
    put_three(b"guard name ", buffer.format(k).as_bytes(), b"\n", out)
}

/// Puts the line of a table whose objects do not stand in three copies.
fn tell_table<S: Sink>(k: u16, out: &mut S) -> Result<(), Failed>
    ensures counts { (S.view out.old).faults ≤ (S.view out.new).faults }
    ensures sent { OnOk result (Known (λ before after. after ≡ before ++ ((table_refusal k).line))
        (S.view out.old).sent (S.view out.new).sent) }
    ensures part { Known (AppendsPart (table_refusal k).line) (S.view out.old).sent
        (S.view out.new).sent }
    ensures failed { OnErr result (Rose (S.view out.old).faults (S.view out.new).faults) }
{
    let mut buffer = Buffer::new();
    put_three(b"guard table ", buffer.format(k).as_bytes(), b"\n", out)
}

/// The end of the line of a text of flips that breaks this rule.
fn flips_end(kind: FlipsKind) -> &'static [u8]
    ensures { result.now ≡ codes " " ++ flips_word kind ++ codes "\n" }
{
    match kind {
        FlipsKind::Lex => b" lex\n",
        FlipsKind::Syntax => b" syntax\n",
        FlipsKind::Number => b" number\n",
    }
}

/// Puts the line of a text of flips that breaks a rule.
fn tell_flips<S: Sink>(fault: FlipsFault, out: &mut S) -> Result<(), Failed>
    ensures counts { (S.view out.old).faults ≤ (S.view out.new).faults }
    ensures sent { OnOk result (Known (λ before after. after
        ≡ before ++ ((flips_refusal fault).line)) (S.view out.old).sent (S.view out.new).sent) }
    ensures part { Known (AppendsPart (flips_refusal fault).line) (S.view out.old).sent
        (S.view out.new).sent }
    ensures failed { OnErr result (Rose (S.view out.old).faults (S.view out.new).faults) }
{
    let mut buffer = Buffer::new();
    put_three(
        b"flips line ",
        buffer.format(fault.line).as_bytes(),
        flips_end(fault.kind),
        out,
    )
}

/// The end of the line of a trace file that breaks this rule.
fn trace_end(kind: TraceKind) -> &'static [u8]
    ensures { result.now ≡ codes " " ++ trace_word kind ++ codes "\n" }
{
    match kind {
        TraceKind::Short => b" short\n",
        TraceKind::Magic => b" magic\n",
        TraceKind::Version => b" version\n",
        TraceKind::Geometry => b" geometry\n",
        TraceKind::Object => b" object\n",
        TraceKind::Overlap => b" overlap\n",
        TraceKind::Event => b" event\n",
        TraceKind::Legal => b" legal\n",
        TraceKind::Rest => b" rest\n",
    }
}

/// Puts the line of a trace file that breaks a rule.
fn tell_trace<S: Sink>(fault: TraceFault, out: &mut S) -> Result<(), Failed>
    ensures counts { (S.view out.old).faults ≤ (S.view out.new).faults }
    ensures sent { OnOk result (Known (λ before after. after
        ≡ before ++ ((trace_refusal fault).line)) (S.view out.old).sent (S.view out.new).sent) }
    ensures part { Known (AppendsPart (trace_refusal fault).line) (S.view out.old).sent
        (S.view out.new).sent }
    ensures failed { OnErr result (Rose (S.view out.old).faults (S.view out.new).faults) }
{
    let mut buffer = Buffer::new();
    put_three(
        b"trace byte ",
        buffer.format(fault.at).as_bytes(),
        trace_end(fault.kind),
        out,
    )
}

/// Puts the last line. A sink that failed is sent nothing.
pub fn tell<S: Sink>(stop: Stop<'_>, out: &mut S) -> Result<(), Failed>
    ensures counts { (S.view out.old).faults ≤ (S.view out.new).faults }
    ensures sent { OnOk result (Known (λ before after. after
        ≡ before ++ (reason_line (reason_of stop.entry))) (S.view out.old).sent
        (S.view out.new).sent) }
    ensures part { Known (AppendsPart (reason_line (reason_of stop.entry))) (S.view out.old).sent
        (S.view out.new).sent }
    ensures failed { OnErr result (Rose (S.view out.old).faults (S.view out.new).faults) }
{
    match stop {
        Stop::CannotRead(name) => put_three(b"cannot read ", name.as_bytes(), b"\n", out),
        Stop::TooLong(name) => put_three(b"too long ", name.as_bytes(), b"\n", out),
        Stop::CannotWrite(name) => put_three(b"cannot write ", name.as_bytes(), b"\n", out),
        Stop::BadOps(fault) => tell_ops(fault, out),
        Stop::BadProg(fault) => tell_prog(fault, out),
        Stop::BadScript(fault) => tell_script(fault, out),
        Stop::BadImage(fault) => tell_image(fault, out),
        Stop::BadQuery(fault) => tell_query(fault, out),
        Stop::ScanRefused(why, k) => tell_scan(why, k, out),
        Stop::TraceFull => put_three(b"trace full\n", b"", b"", out),
        Stop::BadTrace(fault) => tell_trace(fault, out),
        Stop::GeometryDiffers => put_three(b"geometry differs\n", b"", b"", out),
        Stop::GuardName(k) => tell_name(k, out),
        Stop::GuardTable(k) => tell_table(k, out),
        Stop::BadFlips(fault) => tell_flips(fault, out),
        Stop::NoMemory => put_three(b"no memory\n", b"", b"", out),
        Stop::ChipFailed => put_three(b"chip fault\n", b"", b"", out),
        Stop::PutFailed => put_three(b"", b"", b"", out),
    }
}

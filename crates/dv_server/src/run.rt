//! The server.
ghost use Rattle.std.specs.Prelude.{◌≡◌, ◌≢◌, ◌↔◌, ◌≤◌, ◌⊎◌, List, ℕ, Option, Some, option_map};
ghost use Rattle.dv_outside.specs.Causes.{Rose};
ghost use Rattle.dv_lines.specs.Line.{line_of, texts_of, policy_octets, serve as server_line};
ghost use Rattle.dv_exit.specs.Lines.{IsServe, policy_named};
ghost use Rattle.dv_server.specs.Server.{IsServeStatus, ServeEnds, status_of_end, status_of_service};
ghost use Rattle.dv_exit.specs.Status.{number_of};

use dv_commands::{NotServed, serve_register};
use dv_exit::{Names, Status, open_status, read_desk, say, say_no_line};
use dv_lines::{Line, Policy, read_words};
use dv_outside::{Clock, Diag, Shelf, Source, Station};
use dv_session::End;
use std::alloc::Global;

/// The status of a run that ended so, and a word on the diagnostics where it didn't end with its input.
fn ended<E: Diag>(diag: &mut E, end: End) -> Status
    ensures { number_of result ≡ status_of_end end }
{
    let (status, text) = match end {
        End::Input => return Status::Done,
        End::Read => (Status::Read, "the input can't be read"),
        End::Put => (Status::Put, "a response can't be written to the output"),
        End::Fault => (Status::Station, "the register's file can't be written"),
        End::Clock => (Status::Clock, "the clock can't be read"),
        End::Memory => (
            Status::Memory,
            "there is not enough memory for the requests",
        ),
        End::Refused => (
            Status::Input,
            "the octets after the last request begin no request, or the input ended within one",
        ),
        End::Range => (Status::Range, "the clock tells a year past 9999"),
        End::Limit => (
            Status::Limit,
            "2^40 octets were read, and a run reads no more",
        ),
    };
    diag.line(text);
    status
}

/// The status where no request was served, and why on the diagnostics.
fn not_served<E: Diag>(alloc: Global, diag: &mut E, register: &str, refusal: NotServed) -> Status
    ensures { number_of result ≡ status_of_service (Err refusal) }
{
    match format!(in alloc; "{refusal}") {
        Ok(text) => say(alloc, diag, register, text.as_str()),
        Err(_) => say(alloc, diag, register, "the register was not opened"),
    }
    match refusal {
        NotServed::Open(refusal) => open_status(refusal),
        NotServed::NoOwn => Status::File,
        NotServed::Fault => Status::Station,
        NotServed::Memory => Status::Memory,
    }
}

/// The status of a run on the register, or where there was none.
fn service_status<E: Diag>(
    alloc: Global,
    diag: &mut E,
    register: &str,
    answer: Result<End, NotServed>,
) -> Status
    ensures { number_of result ≡ status_of_service answer }
{
    match answer {
        Ok(end) => ended(diag, end),
        Err(refusal) => not_served(alloc, diag, register, refusal),
    }
}

/// The words of `serve` and their values.
#[derive(Clone, Copy)]
struct Service<'a> {
    register: &'a str,
    names: Names<'a>,
    policy: Option<&'a Policy>,
}

/// Reads the files of the server, opens its register, and serves.
fn serve_by_files<S: Source, V: Station, F: Shelf, C: Clock, E: Diag>(
    alloc: Global,
    line: &Service<'_>,
    shelf: &mut F,
    source: &mut S,
    clock: &mut C,
    diag: &mut E,
    station: V,
) -> (Status, V)
    ensures ends { ServeEnds V.tells V.content V.counts (F.files shelf.old) line.now.names.seed.now line.now.names.certificate.now line.now.names.trust.now
        (policy_named line.now.policy) (S.left source.old) (S.left source.new) (C.told clock.old) (C.told clock.new) (S.ended source.new)
        ((source.new ≡ source.old) × (clock.new ≡ clock.old)) (number_of result.0) station result.1 }
    ensures status { IsServeStatus (number_of result.0) }
    ensures words { result.0 ≢ Status.Words }
    ensures read_fault { result.0 ≡ Status.Read → Rose (S.faults source.old) (S.faults source.new) }
    ensures clock_fault { result.0 ≡ Status.Clock → Rose (C.faults clock.old) (C.faults clock.new) }
    ensures put_fault { result.0 ≡ Status.Put → Rose (V.counts station).put_faults (V.counts result.1).put_faults }
    ensures fault { result.0 ≡ Status.Station → Rose (V.counts station).faults (V.counts result.1).faults }
    ensures shelf_fault { result.0 ≡ Status.Shelf → Rose (F.faults shelf.old) (F.faults shelf.new) }
    ensures source_later { S.faults source.old ≤ S.faults source.new }
    ensures clock_later { C.faults clock.old ≤ C.faults clock.new }
    ensures shelf_later { F.faults shelf.old ≤ F.faults shelf.new }
    ensures put_later { (V.counts station).put_faults ≤ (V.counts result.1).put_faults }
    ensures later { (V.counts station).faults ≤ (V.counts result.1).faults }
    ensures files { F.files shelf.new ≡ F.files shelf.old }
    ensures tells { V.tells result.1 ≡ V.tells station }
{
    let desk = match read_desk(alloc, &line.names, line.policy, shelf, diag) {
        Ok(desk) => desk,
        Err(status) => return (status, station),
    };
    let (answer, station) = serve_register(alloc, source, clock, station, &desk);
    (service_status(alloc, diag, line.register, answer), station)
}

/// Serves requests, and hands the station back with the exit status. The words are those after the program's name.
///
/// The seed, the server's certificates and the trust file come from `shelf`. Requests come from `source`, one after another; `clock` is asked for the
/// moment of each; what it gets is put to `station`, whose file is the register, before the next is looked at.
///
/// | Status | Comes |
/// |---|---|
/// | 0 | exactly where the input ended at a request's end, every request has its answer, and no reservation met a fault |
/// | 2 | exactly where the words are no line of the server |
/// | 3 | exactly where a file is longer than its limit or isn't what it should be, the first certificate has another key than the seed, the register is refused, or its first record isn't that of an own certificate |
/// | 4 | only where the source's count of faults rose in this call |
/// | 5 | only where the station's count of failed puts rose in this call |
/// | 6 | only where the station's count of faults rose in this call |
/// | 7 | only where the clock's count of faults rose in this call |
/// | 8 | want of memory |
/// | 9 | exactly where octets stand after the last request that begin none, or in which the input ended |
/// | 10 | only where the shelf's count of faults rose in this call |
/// | 11 | exactly where the clock told a second past the year 9999 |
/// | 13 | exactly where 2^40 octets were taken and a read is due |
///
/// With 2, 10, and 3 for a file or the keys no call of the station is made.
pub fn run_serve<R: AllocGlobal, S: Source, V: Station, F: Shelf, C: Clock, E: Diag>(
    rt: &R,
    words: &[String],
    shelf: &mut F,
    source: &mut S,
    clock: &mut C,
    diag: &mut E,
    station: V,
) -> (u8, V)
    ensures status { IsServeStatus result.0 ⊎ (result.0 ≡ 2) }

    // Want of memory may come also where the words are no line.
    ensures words { result.0 ≢ 8 → ((result.0 ≡ 2) ↔ ¬ IsServe (line_of (texts_of words.now))) }
    ensures no_line { result.0 ≡ 2 → (result.1 ≡ station) × (source.new ≡ source.old) × (clock.new ≡ clock.old) }

    // What the server did: the answers to the requests of the input were put, each certificate that of a record which the register had by then, and how
    // the run ended; or nothing was served, and why.
    ensures ends { (register seed certificate trust : List ℕ) (policy : Option (List ℕ))
        → line_of (texts_of words.now) ≡ Some (server_line register seed certificate trust policy)
        → ServeEnds V.tells V.content V.counts (F.files shelf.old) seed certificate trust policy (S.left source.old) (S.left source.new) (C.told clock.old)
        (C.told clock.new) (S.ended source.new) ((source.new ≡ source.old) × (clock.new ≡ clock.old)) result.0 station result.1 }

    // What stands behind a fault.
    ensures read_fault { result.0 ≡ 4 → Rose (S.faults source.old) (S.faults source.new) }
    ensures clock_fault { result.0 ≡ 7 → Rose (C.faults clock.old) (C.faults clock.new) }
    ensures put_fault { result.0 ≡ 5 → Rose (V.counts station).put_faults (V.counts result.1).put_faults }
    ensures fault { result.0 ≡ 6 → Rose (V.counts station).faults (V.counts result.1).faults }
    ensures shelf_fault { result.0 ≡ 10 → Rose (F.faults shelf.old) (F.faults shelf.new) }
    ensures source_later { S.faults source.old ≤ S.faults source.new }
    ensures clock_later { C.faults clock.old ≤ C.faults clock.new }
    ensures shelf_later { F.faults shelf.old ≤ F.faults shelf.new }
    ensures put_later { (V.counts station).put_faults ≤ (V.counts result.1).put_faults }
    ensures later { (V.counts station).faults ≤ (V.counts result.1).faults }
    ensures files { F.files shelf.new ≡ F.files shelf.old }
    ensures tells { V.tells result.1 ≡ V.tells station }
{
    let line = match read_words(rt.alloc(), words) {
        Ok(line) => line,
        Err(fault) => {
            let status = say_no_line(rt.alloc(), diag, &fault);
            return (status.number(), station);
        }
    };
    let Line::Serve {
        register,
        seed,
        certificate,
        trust,
        policy,
    } = &line
    else {
        diag.line("the line is no server's");
        return (Status::Words.number(), station);
    };
    let service = Service {
        register,
        names: Names {
            seed,
            certificate,
            trust,
        },
        policy: policy.as_ref(),
    };
    let (status, station) = serve_by_files(
        rt.alloc(),
        &service,
        shelf,
        source,
        clock,
        diag,
        station,
    );
    (status.number(), station)
}

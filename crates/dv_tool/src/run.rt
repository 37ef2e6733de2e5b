//! The commands that end by themselves: all but the server.
ghost use Rattle.std.specs.Prelude.{◌≡◌, ◌≢◌, ◌↔◌, ◌≤◌, None, Some};
ghost use Rattle.dv_outside.specs.Causes.{Rose};
ghost use Rattle.dv_lines.specs.Line.{KeepsLimits, line_of, texts_of, Told, told_by, tool_line, serve as serve_line};
ghost use Rattle.dv_exit.specs.Lines.{IsServe};
ghost use Rattle.dv_exit.specs.Status.{number_of};
ghost use Rattle.dv_tool.specs.Tool.{Ends, IsToolStatus};

use crate::init::{NewRegister, make_register};
use crate::reissue::{Again, put_again};
use crate::request::{Terms, put_request};
use crate::show::put_shown;
use crate::validate::{Validation, put_validation};
use dv_exit::{Status, say_no_line};
use dv_lines::{Line, read_words};
use dv_outside::{Clock, Diag, Shelf, Source, Station};
use std::alloc::Global;

/// Runs the command of a line.
fn run_line<V: Station, F: Shelf, E: Diag>(
    alloc: Global,
    line: &Line<'_>,
    shelf: &mut F,
    diag: &mut E,
    station: V,
) -> (Status, V)
    requires { KeepsLimits (told_by line.now) }
    ensures ends { Ends V.tells V.content V.counts (F.files shelf.old) (told_by line.now) (number_of result.0) station result.1 }
    ensures status { IsToolStatus (number_of result.0) }
    ensures words { (result.0 ≡ Status.Words) ↔ IsServe (Some (told_by line.now)) }
    ensures put_fault { result.0 ≡ Status.Put → Rose (V.counts station).put_faults (V.counts result.1).put_faults }
    ensures fault { result.0 ≡ Status.Station → Rose (V.counts station).faults (V.counts result.1).faults }
    ensures shelf_fault { result.0 ≡ Status.Shelf → Rose (F.faults shelf.old) (F.faults shelf.new) }
    ensures shelf_later { F.faults shelf.old ≤ F.faults shelf.new }
    ensures shelf_files { F.files shelf.new ≡ F.files shelf.old }
    ensures tells { V.tells result.1 ≡ V.tells station }
{
    match line {
        Line::Request {
            service,
            file,
            nonce,
            at,
        } => {
            let terms = Terms {
                service: *service,
                nonce: nonce.as_ref(),
                at: *at,
            };
            let mut station = station;
            let status = put_request(alloc, &terms, file, shelf, diag, &mut station);
            (status, station)
        }
        Line::Validate { files, nonce, at } => {
            let asked = Validation {
                files,
                nonce: nonce.as_ref(),
                at: *at,
            };
            let mut station = station;
            let status = put_validation(alloc, &asked, shelf, diag, &mut station);
            (status, station)
        }
        Line::Show { file } => {
            let mut station = station;
            let status = put_shown(alloc, file, shelf, diag, &mut station);
            (status, station)
        }
        Line::Init {
            register,
            seed,
            name,
            from,
            until,
            first,
        } => {
            let line = NewRegister {
                register,
                seed,
                name,
                from: *from,
                until: *until,
                first: *first,
            };
            make_register(alloc, &line, shelf, diag, station)
        }
        Line::Reissue {
            register,
            seed,
            serial,
        } => {
            let line = Again {
                register,
                seed,
                serial: *serial,
            };
            put_again(alloc, &line, shelf, diag, station)
        }
        Line::Serve { .. } => {
            diag.line("the line is the server's");
            (Status::Words, station)
        }
    }
}

/// Runs the command that the words say, and hands the station back with the exit status.
///
/// The words are those after the program's name. What the command reads and writes is what it is lent: files by `shelf`,
/// the standard input by `source`, the moment by `clock`, lines for people by `diag`, and the output and the register's file by `station`.
///
/// | Status | Comes |
/// |---|---|
/// | 0 | what the command puts was put: the request for the file, a line for each of its values, the own certificate, or the certificate of the record |
/// | 2 | exactly where the words are no line of such a command |
/// | 3 | exactly where a file is longer than its limit or isn't what it should be; for `reissue` also where the register is refused, or the contents of the record are |
/// | 5 | only where the station's count of failed puts rose in this call |
/// | 6 | only where the station's count of faults rose in this call |
/// | 8 | want of memory |
/// | 10 | only where the shelf's count of faults rose in this call |
/// | 12 | for `init` exactly where the register's file isn't empty, for `reissue` exactly where no record has the serial number |
///
/// With 2, 10, and 3 for a file no call of the station is made.
pub fn run_tool<R: AllocGlobal, S: Source, V: Station, F: Shelf, C: Clock, E: Diag>(
    rt: &R,
    words: &[String],
    shelf: &mut F,
    source: &mut S,
    clock: &mut C,
    diag: &mut E,
    station: V,
) -> (u8, V)
    ensures status { IsToolStatus result.0 }

    // Want of memory may come also where the words are no line.
    ensures words { result.0 ≢ 8 → ((result.0 ≡ 2) ↔ (tool_line (line_of (texts_of words.now)) ≡ None)) }
    ensures no_line { result.0 ≡ 2 → result.1 ≡ station }

    // What the command of the line did.
    ensures ends { (told : Told) → tool_line (line_of (texts_of words.now)) ≡ Some told
        → Ends V.tells V.content V.counts (F.files shelf.old) told result.0 station result.1 }

    // What stands behind a fault, and what is left as it was.
    ensures put_fault { result.0 ≡ 5 → Rose (V.counts station).put_faults (V.counts result.1).put_faults }
    ensures fault { result.0 ≡ 6 → Rose (V.counts station).faults (V.counts result.1).faults }
    ensures shelf_fault { result.0 ≡ 10 → Rose (F.faults shelf.old) (F.faults shelf.new) }
    ensures tells { V.tells result.1 ≡ V.tells station }
    ensures shelf_later { F.faults shelf.old ≤ F.faults shelf.new }
    ensures shelf_files { F.files shelf.new ≡ F.files shelf.old }
    ensures source { source.new ≡ source.old }
    ensures clock { clock.new ≡ clock.old }
{
    let line = match read_words(rt.alloc(), words) {
        Ok(line) => line,
        Err(fault) => {
            let status = say_no_line(rt.alloc(), diag, &fault);
            return (status.number(), station);
        }
    };
    let (status, station) = run_line(rt.alloc(), &line, shelf, diag, station);
    (status.number(), station)
}

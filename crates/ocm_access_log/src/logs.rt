ghost use Rattle.std.specs.Prelude.{◌≡◌, [], Ok, IfOk, OnOk, IfErr};
ghost use Rattle.ocm_access_log.specs.Gives.{Gives};
ghost use Rattle.ocm_access_log.specs.Lines.{line_behind, log_of};
ghost use Rattle.ocm_access_log.specs.Logs as logs;
ghost use Rattle.ocm_access_log.specs.Logs.{GivesLog, IsLogFault};
ghost use Rattle.ocm_access_log.specs.Reads.{AreLogged};

use crate::cuts::cut;
use crate::faults::{LineFault, LogReadFault};
use crate::lines::{LogLine, read_line};
use ocm_base::List;
use std::alloc::Global;

/// A line, its line feed aside, where the line before had this place and moment.
fn next_line(alloc: Global, place: u64, moment: u64, bytes: &[u8]) -> Result<LogLine, LineFault>
    ensures { Gives (λ line. line) result (line_behind place moment bytes.now) }
{
    let line = read_line(alloc, bytes)?;
    if place <= line.place && moment <= line.moment {
        Ok(line)
    } else {
        drop(line);
        Err(LineFault::Bad)
    }
}

/// The same line as that of this number.
fn numbered(number: u64, line: Result<LogLine, LineFault>) -> Result<LogLine, LogReadFault>
    ensures { result ≡ logs.numbered number line }
{
    match line {
        Ok(line) => Ok(line),
        Err(LineFault::Bad) => Err(LogReadFault::BadLine(number)),
        Err(LineFault::NoMemory) => Err(LogReadFault::NoMemory),
    }
}

/// Adds the lines of a log to an empty list.
fn add_lines(alloc: Global, lines: &mut List<LogLine>, log: &[u8]) -> Result<(), LogReadFault>
    requires { lines.old ≡ [] }
    ensures ok { OnOk result (log_of log.now ≡ Ok lines.new) }
    ensures err { IfErr result (λ fault. IsLogFault fault (log_of log.now)) }
{
    let mut rest = log;
    let mut number = 1;
    let mut place = 0;
    let mut moment = 0;
    while !rest.is_empty() {
        let Some((bytes, behind)) = cut(b'\n', rest) else {
            return Err(LogReadFault::BadLine(number));
        };
        let line = numbered(number, next_line(alloc, place, moment, bytes))?;
        place = line.place;
        moment = line.moment;
        lines.push(line)?;
        rest = behind;
        number += 1;
    }
    Ok(())
}

/// The lines of a log. `BadLine` has the number of the first that has not the form of a line, that has no line feed, or
/// whose place or moment is below that of the line before.
pub fn read_log(alloc: Global, log: &[u8]) -> Result<List<LogLine>, LogReadFault>
    ensures exact { GivesLog result (log_of log.now) }
    ensures order { IfOk result AreLogged }
{
    let mut lines = List::new(alloc);
    add_lines(alloc, &mut lines, log)?;
    Ok(lines)
}

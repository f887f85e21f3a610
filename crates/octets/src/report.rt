// The report of a timeout: 8 octets, the place, the kind and the address.
ghost use Rattle.std.specs.Prelude.{◌≡◌, ◌+◌, ◌≤◌, length};
ghost use Rattle.octets.specs.Stored.{Stored};
ghost use Rattle.octets.specs.Report.{report_bytes, report_written};

use crate::put::{put_address, put_octet};

fn put_report(out: &mut [u8], at: usize, place: u8, kind: u8, address: u64)
    requires { at + 8 ≤ length out.old }
    ensures { Stored out.old at (report_bytes place kind address) out.new }
{
    put_octet(out, at, place);
    put_octet(out, at + 1, kind);
    put_address(out, at + 2, address);
}

// Writes a report at a position of the buffer; where it does not fit, nothing.
pub fn write_report(out: &mut [u8], at: usize, place: u8, kind: u8, address: u64)
    ensures { out.new ≡ report_written out.old at place kind address }
{
    if out.len() < 8 {
        return;
    }
    if out.len() - 8 < at {
        return;
    }
    put_report(out, at, place, kind, address);
}

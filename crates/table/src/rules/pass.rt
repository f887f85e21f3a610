// A clock step's rule: the report of a place.
ghost use Rattle.std.specs.Prelude.{◌≡◌, ◌+◌, ◌≤◌, length};
ghost use Rattle.std.proofs.lemmas.List.Edits.{sets};
ghost use Rattle.table.specs.Pass.{report_for};

use octets::report::write_report;

// Writes the report of a place, if an exchange ended there, and gives where the next goes.
// Kind 0 is none, as `report_for` has it.
pub(crate) fn put_report(out: &mut [u8], n: usize, place: u8, kind: u8, address: u64) -> usize
    requires { n + 8 ≤ length out.old }
    ensures { (result ≡ n + length (report_for place kind address)) × (out.new ≡ sets out.old n (report_for place kind address)) }
{
    if kind == 0 {
        return n;
    }
    write_report(out, n, place, kind, address);
    n + 8
}

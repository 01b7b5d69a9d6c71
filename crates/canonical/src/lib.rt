// The canonical file.
#![tactic(auto)]

ghost use Rattle.std.specs.Prelude.{◌≡◌};
ghost use Rattle.canonical.specs.Canonical.{MakesCanonical};
ghost use Rattle.canonical.specs.Says.{canonical_says};

mod accepted;
mod checks;
mod kept;
mod turned;

use accepted::Accepted;
pub use checks::CanonicalError;

// Writes the canonical file of a file, if it is accepted for the two counts.
pub fn canonical(
    file: &[u8],
    iid_count: usize,
    sid_count: usize,
    out: &mut [u8],
) -> Result<(), CanonicalError>
    ensures { MakesCanonical file.now iid_count sid_count (canonical_says result) out.old out.new }
{
    checks::check_canonical(file, iid_count, sid_count, out.len())?;
    let accepted = Accepted {
        file,
        shape: calls::shape_of(file, iid_count, sid_count),
        out_width: blocks::block_width(iid_count),
    };
    accepted.write(out);
    Ok(())
}

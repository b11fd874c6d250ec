// What writes a result to the front of a lent output, and moves bytes there.
#![tactic(auto)]

ghost use Rattle.std.specs.Prelude.{◌≡◌};
ghost use Rattle.delivery.specs.Delivered.{delivered};
ghost use Rattle.delivery.specs.InnerPlaces.{moved};
ghost use Rattle.script.specs.Outcome.{done};
ghost use Rattle.terms.specs.Numbers.{outcome};

use terms::{Reason, Refusal};

// Puts a result at the front of an output, and answers its length; what is behind it is as it was. Total: any result, any output.
pub fn deliver(out: &mut [u8], res: &[u8]) -> Result<usize, Refusal>
    ensures { delivered (done res.now) out.old ≡ record { answer = outcome result; output = out.new } }
{
    let length = res.len();
    if out.len() < length {
        return Err(Reason::ShortTray.at(0));
    }
    out[..length].copy_from_slice(res);
    Ok(length)
}

// Moves a part of `out` on by some bytes; what lies in between keeps its bytes. A part that is none, or does not fit there, is not moved.
pub fn shift(out: &mut [u8], start: usize, end: usize, by: usize)
    ensures { out.new ≡ moved start end by out.old }
{
    if end < start || out.len() < by || out.len() - by < end {
        return;
    }
    out.copy_within(start..end, start + by);
}

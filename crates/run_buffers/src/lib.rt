// The buffers that a host lends: the rule of the inputs, and copies.

#![tactic(auto)]

ghost use Rattle.std.specs.Prelude.{◌≡◌, ◌≤◌, length};
ghost use Rattle.rules.specs.Words.{put};
ghost use Rattle.rules.specs.Checker.{inputs_fault};

use rules::INPUT_LIMIT;

// Whether the inputs are no multiple of 8 bytes, none, or over 256.
pub fn has_inputs_fault(inputs: &[u8]) -> bool
    ensures { result ≡ inputs_fault inputs.now }
{
    inputs.len() % 8 != 0 || inputs.is_empty() || INPUT_LIMIT < inputs.len() / 8
}

// The bytes of `from` are put over the first ones of `to`.
pub fn copy(to: &mut [u8], from: &[u8])
    requires { length from.now ≤ length to.old }
    ensures { to.new ≡ put to.old 0 from.now }
{
    for i in 0..from.len() {
        to[i] = from[i];
    }
}

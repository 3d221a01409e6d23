// Registers moved up and down by digits: the number in them times a power of 2, or divided by one.
//
//   pushed     the first words moved up by fewer than 64 digits, with others below them; what leaves those words is lost
//   shifted    the same where nothing leaves them
//   raised     the whole register moved up by any number of digits
//   lowered    the same downwards
//
// proofs/Shifts.antt has the laws.
#![tactic(auto)]

ghost use Rattle.std.specs.Prelude.{◌≡◌, ◌+◌, ◌*◌, ◌/◌, ◌%◌, ◌^◌, ◌≤◌, ◌<◌};
ghost use Rattle.code.specs.Register.{register};

use remainder::Register;

// The number in the first words of a register times 2^k, with `lowest` as its k lowest digits. What leaves those words is lost.
pub fn pushed(state: Register, used: usize, k: usize, lowest: u64) -> Register
    requires { (used ≤ 14) × (0 < k) × (k < 64) × (lowest < 2 ^ k) × (register state.words < 2 ^ (64 * used)) }
    ensures { register result.words ≡ (register state.words * 2 ^ k + lowest) % 2 ^ (64 * used) }
{
    let mut words = state.words;
    let mut carry = lowest;
    for i in 0..used {
        let w = words[i];
        words[i] = (w << k) + carry;
        carry = w >> (64 - k);
    }
    Register { words: words }
}

// The same where nothing leaves them.
pub fn shifted(state: Register, used: usize, k: usize, lowest: u64) -> Register
    requires { (used ≤ 14) × (0 < k) × (k < 64) × (lowest < 2 ^ k) × (register state.words * 2 ^ k + lowest < 2 ^ (64 * used)) }
    ensures { register result.words ≡ register state.words * 2 ^ k + lowest }
{
    pushed(state, used, k, lowest)
}

// The number in the words of a register from q on.
fn without_words(state: Register, q: usize) -> Register
    requires { q ≤ 14 }
    ensures { register result.words ≡ register state.words / 2 ^ (64 * q) }
{
    let from = state.words;
    let mut words = [0u64; 14];
    for i in 0..14 - q {
        words[i] = from[i + q];
    }
    Register { words: words }
}

// The number in a register divided by 2^k, for k below 64.
fn without_digits(state: Register, k: usize) -> Register
    requires { (0 < k) × (k < 64) }
    ensures { register result.words ≡ register state.words / 2 ^ k }
{
    let from = state.words;
    let mut words = [0u64; 14];
    for i in 0..13 {
        words[i] = (from[i] >> k) + (from[i + 1] << (64 - k));
    }
    words[13] = from[13] >> k;
    Register { words: words }
}

// The number in a register times 2^k. What leaves the register is lost.
pub fn raised(state: Register, k: usize) -> Register
    ensures { register result.words ≡ register state.words * 2 ^ k % 2 ^ 896 }
{
    let mut r = state;
    let mut left = k;
    // By hand: a turn takes 63 digits, the most that `pushed` moves, and not one.
    while 63 < left {
        r = pushed(r, 14, 63, 0);
        left -= 63;
    }
    if left == 0 {
        return r;
    }
    pushed(r, 14, left, 0)
}

// The number in a register divided by 2^k.
pub fn lowered(state: Register, k: usize) -> Register
    requires { k ≤ 896 }
    ensures { register result.words ≡ register state.words / 2 ^ k }
{
    let down = without_words(state, k / 64);
    let odd = k % 64;
    if odd == 0 {
        return down;
    }
    without_digits(down, odd)
}

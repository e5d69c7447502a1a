#![tactic(auto)]
// Characters: is a line well-formed UTF-8? One walk along it, by the Unicode standard's table of byte sequences.
ghost use Rattle.std.specs.Prelude.{◌≡◌, not, ◌&&◌, [], ◌∷◌, ◌+◌, ◌<◌, ◌≤◌, eqb, length, drop};
ghost use Rattle.meaning.specs.Characters.{awaited, awaited_after};
ghost use Rattle.meaning.specs.Refusals.{rule14};
ghost use Rattle.characters.specs.States.{awaits, class_of, class_letters, next_states, to_high, plain};

// Between two characters a walk lacks nothing.
const START: u8 = 0;

// The next state by state and byte class. The states, by what a character lacks: 0 nothing; 1 a byte; 2, 3 and 4 two bytes, the first from A0 on,
// any, up to 9F; 5, 6 and 7 three bytes, the first from 90 on, any, up to 8F; 8 what no byte can give.
// The classes, by their first byte: 00, 80, 90, A0, C0, C2, E0, E1, ED, EE, F0, F1, F4, F5.
const NEXT: [[u8; 14]; 9] = [
    [0, 8, 8, 8, 8, 1, 2, 3, 4, 3, 5, 6, 7, 8],
    [8, 0, 0, 0, 8, 8, 8, 8, 8, 8, 8, 8, 8, 8],
    [8, 8, 8, 1, 8, 8, 8, 8, 8, 8, 8, 8, 8, 8],
    [8, 1, 1, 1, 8, 8, 8, 8, 8, 8, 8, 8, 8, 8],
    [8, 1, 1, 8, 8, 8, 8, 8, 8, 8, 8, 8, 8, 8],
    [8, 8, 3, 3, 8, 8, 8, 8, 8, 8, 8, 8, 8, 8],
    [8, 3, 3, 3, 8, 8, 8, 8, 8, 8, 8, 8, 8, 8],
    [8, 3, 8, 8, 8, 8, 8, 8, 8, 8, 8, 8, 8, 8],
    [8, 8, 8, 8, 8, 8, 8, 8, 8, 8, 8, 8, 8, 8],
];

// The class of each byte from 80 on, a letter for each class: a is ASCII.
const CLASSES: [u8; 128] =
    *b"bbbbbbbbbbbbbbbbccccccccccccccccddddddddddddddddddddddddddddddddeeffffffffffffffffffffffffffffffghhhhhhhhhhhhijjklllmnnnnnnnnnnn";

// The class of a byte, by the letters above.
fn class_of(letters: &[u8; 128], b: u8) -> usize
    requires { letters.now ≡ class_letters }
    ensures { (result ≡ class_of b) × (result < 14) }
{
    if b < 0x80 {
        return 0;
    }
    let i = (b - 0x80) as usize;
    (letters[i] - b'a') as usize
}

// The state after a byte, by the table above.
fn next_state(table: &[[u8; 14]; 9], letters: &[u8; 128], q: u8, b: u8) -> u8
    requires { (table.now ≡ next_states) × (letters.now ≡ class_letters) × (q < 9) }
    ensures { (awaits result ≡ awaited (awaits q) b) × (result < 9) }
{
    let c = class_of(letters, b);
    let k = q as usize;
    table[k][c]
}

// Where the first byte from `at` on stands that is no ASCII; the line's end where there is none.
fn ascii_end(l: &[u8], at: usize) -> usize
    ensures { (result ≡ at + to_high (drop at l.now)) × (at ≤ result) }
{
    let Some(rest) = l.get(at..) else {
        return at;
    };
    at + rest.iter().position(|b| 0x80 <= *b).unwrap_or(rest.len())
}

// Does a line await something at its end, from `at` on, where a character begins? Between characters a run of ASCII is passed over.
fn awaits_more(l: &[u8], at: usize) -> bool
    ensures { result ≡ not (eqb (length (awaited_after [] (drop at l.now))) 0) }
{
    // Made once a line: a constant's array is written anew wherever it is named.
    let table = NEXT;
    let letters = CLASSES;
    let mut q = START;
    // By index: a turn takes a byte, and a run of ASCII where there is one.
    let mut i = at;
    while i < l.len() {
        q = next_state(&table, &letters, q, l[i]);
        i += 1;
        if q == START {
            i = ascii_end(l, i);
        }
    }
    q != START
}

// Is a line not well-formed UTF-8? A line of ASCII is told by a test a byte.
pub fn is_ill_formed(l: &[u8]) -> bool
    ensures { result ≡ rule14 l.now }
{
    let at = ascii_end(l, 0);
    if l.len() <= at {
        return false;
    }
    awaits_more(l, at)
}

// As many bytes as a turn looks at before the walk may end: two wide registers.
const BLOCK: usize = 32;

// Is each of these bytes one of 20 to 7F? No byte is left out, so that the compiler looks at many at once.
fn all_plain(s: &[u8]) -> bool
    ensures { result ≡ plain s.now }
{
    s.iter()
        .fold(true, |all, b| all & (0x20 <= *b && *b < 0x80))
}

// Is every byte of a line one of 20 to 7F? Then it breaks neither rule 5 nor rule 14, told by one walk: block by block, no further than the first with another
// byte, then the rest, less than a block. By index, as `text::count_lf`.
pub fn is_plain(l: &[u8]) -> bool
    ensures { result ≡ plain l.now }
{
    let mut i = 0;
    while BLOCK <= l.len() - i {
        if !all_plain(&l[i..i + BLOCK]) {
            return false;
        }
        i += BLOCK;
    }
    all_plain(&l[i..])
}

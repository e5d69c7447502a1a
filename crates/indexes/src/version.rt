// A version of an index: its number, and in how many bytes the count and each record number stand.
ghost use Rattle.std.specs.Prelude.{IsTrue, eqb, ◌||◌};

// No enum, since `version1` and `version2` are these two numbers.
#[derive(Clone, Copy)]
pub struct Version {
    pub number: usize,
    pub width: usize,
    // a number has two bytes or four
    pub ghost wide: { IsTrue (eqb width 2 || eqb width 4) },
}

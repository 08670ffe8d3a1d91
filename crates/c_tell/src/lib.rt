// What a caller in another language is told beside the number: elements of a lent slice, as many as there is room for.
#![tactic(auto)]

ghost use Rattle.std.specs.Prelude.{◌≡◌, set};
ghost use Rattle.c_tell.specs.ToldNumbers.{with_numbers};

// Three numbers into the first three elements.
pub fn tell(told: &mut [u64], count: usize, place: usize, third: usize)
    ensures { told.new ≡ with_numbers told.old count place third }
{
    put(told, 0, count);
    put(told, 1, place);
    put(told, 2, third);
}

// A number into the element at i, where there is one.
pub fn put(told: &mut [u64], i: usize, number: usize)
    ensures { told.new ≡ set told.old i number }
{
    if i < told.len() {
        told[i] = number as u64;
    }
}

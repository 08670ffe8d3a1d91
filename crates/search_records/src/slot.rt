// A slot that the working buffer has, and what the bytes say of the way to it.
ghost use Rattle.search_records.specs.Records.{SlotIn};

use crate::{Back, Origin};
use base_codes::FIELD_CODE;
use base_places::CHARACTERS;
use search_slots::numbers::number;
use search_slots::{KEY, NUMBER, RIGHT, SLOT, slots_in};

#[derive(Clone, Copy)]
pub struct Slot<'a> {
    pub work: &'a [u8],
    pub number: usize,
    pub ghost slot_in: { SlotIn work.now number },
}

impl<'a> Slot<'a> {
    ghost use Rattle.std.specs.Prelude.{◌≡◌, ◌↔◌, ◌/◌, ◌<◌, ◌≤◌, min, length, IsSome, IfSome};
    ghost use Rattle.paper.specs.Numbers.{fields, situation_bytes};
    ghost use Rattle.search_records.specs.Records.{parent_in, step_in, origin_in, puts_in, way_spelt, StepsBack};

    // The slot with this number, if the buffer has it.
    pub fn at(work: &'a [u8], number: usize) -> Option<Slot<'a>>
        ensures there { IsSome result ↔ (number < length work.now / situation_bytes) }
        ensures slot { IfSome result (λ s. (s.work.now ≡ work.now) × (s.number ≡ number)) }
    {
        if slots_in(work.len()) <= number {
            return None;
        }
        Some(Slot { work, number })
    }

    // The one with this number, or itself where that is a later one.
    pub fn earlier(&self, number: usize) -> Slot<'a>
        ensures { (result.work.now ≡ self.now.work.now) × (result.number ≡ min number self.now.number) }
    {
        Slot {
            work: self.work,
            number: number.min(self.number),
        }
    }

    // The number of its parent.
    fn parent(&self) -> usize
        ensures { result ≡ parent_in self.now.work.now self.now.number }
    {
        let at = SLOT * self.number + KEY;
        number(&self.work[at..at + NUMBER]) as usize
    }

    // The step that made it.
    fn step(&self) -> u8
        ensures { result ≡ step_in self.now.work.now self.now.number }
    {
        let at = SLOT * self.number + KEY;
        self.work[at + NUMBER]
    }

    // Where it comes from.
    pub fn origin(&self) -> Origin
        ensures { result ≡ origin_in self.now.work.now self.now.number }
    {
        let parent = self.parent();
        let step = self.step();
        Origin { parent, step }
    }

    // Did this step from it put its character before the field f?
    fn puts_before(&self, step: u8, f: u8) -> bool
        requires { f < fields }
        ensures { result ≡ puts_in self.now.work.now self.now.number step f }
    {
        if step as usize >= CHARACTERS {
            return false;
        }
        let at = SLOT * self.number;
        if self.work[at] == FIELD_CODE + f {
            return true;
        }
        self.work[at + RIGHT] == FIELD_CODE + f
    }

    // One step back from it, where it isn't the first. Where its parent is not before it the way ends.
    fn step_back(&self, f: u8) -> Back
        requires nonzero { 0 < self.now.number }
        requires f_lt_fields { f < fields }
        ensures { StepsBack self.now.work.now self.now.number f result }
    {
        let parent = self.parent();
        if self.number <= parent {
            return Back {
                parent: 0,
                put: None,
            };
        }
        let step = self.step();
        let put = self.earlier(parent).puts_before(step, f).then_some(step);
        Back { parent, put }
    }

    // The length of the text of the field f, along the way from slot 0.
    pub(crate) fn text_length(&self, f: u8) -> usize
        requires { f < fields }
        ensures { result ≡ length (way_spelt self.now.work.now self.now.number f) }
    {
        let mut n = 0;
        let mut i = self.number;
        while i > 0 {
            let back = self.earlier(i).step_back(f);
            if back.put.is_some() {
                n += 1;
            }
            i = back.parent;
        }
        n
    }

    // The text of the field f, written from its end back.
    // Kept: (d) a walk of its own beside that of `text_length`: a closure that writes would have to promise the lent slice at each turn, which is longer than the loop.
    pub(crate) fn write_text(&self, out: &mut [u8], f: u8)
        requires f_lt_fields { f < fields }
        requires out_len { length out.old ≡ length (way_spelt self.now.work.now self.now.number f) }
        ensures { out.new ≡ way_spelt self.now.work.now self.now.number f }
    {
        let mut at = out.len();
        let mut i = self.number;
        while i > 0 {
            let back = self.earlier(i).step_back(f);
            if let Some(character) = back.put {
                at -= 1;
                out[at] = character;
            }
            i = back.parent;
        }
    }
}

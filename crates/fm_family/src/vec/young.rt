//! Members that are made while another thread scrapes: they stand in a list of their own, and go after the others.
ghost use Rattle.std.specs.Prelude.{◌≡◌, ◌++◌, [], IsTrue, false};
ghost use Rattle.std.specs.List.{IsDistinct};
ghost use Rattle.std.specs.List.Retain.{IsFiltered};
ghost use Rattle.std.specs.Map.{keys_of};
ghost use Rattle.fm_labels.specs.LabelValues.{shown_texts, values_eq};
ghost use Rattle.fm_family.specs.MemberCalls.{Locked, Removes};
ghost use Rattle.fm_family.specs.Members.{CalledAtMember};
ghost use Rattle.fm_family.specs.VecMembers.{AreVecMembers};
ghost use Rattle.fm_family.specs.inside.Young.{AreBeside, HasRoomBeside};

use crate::vec::hashing::LabelHashing;
use crate::vec::members::VecMembers;
use fm_labels::label_values::LabelValues;
use indexmap::IndexMap;

// Moves the entries after others, which have other keys. Returns whether there was memory for them; else all stay.
pub(crate) fn move_all<M: Drop>(
    from: &mut IndexMap<LabelValues, M, LabelHashing>,
    to: &mut IndexMap<LabelValues, M, LabelHashing>,
) -> bool
    requires { IsDistinct values_eq (keys_of (to.old.entries ++ from.old.entries)) }
    ensures moved { IsTrue result → (to.new.entries ≡ to.old.entries ++ from.old.entries)
        × (from.new.entries ≡ []) }
    ensures kept { (result ≡ false) → (to.new.entries ≡ to.old.entries)
        × (from.new.entries ≡ from.old.entries) }
{
    if to.reserve(from.len()).is_err() {
        return false;
    }
    from.reverse();
    while let Some((values, metric)) = from.pop() {
        let Ok(_) = to.insert(values, metric) else {
            unreachable!()
        };
    }
    true
}

impl<M> VecMembers<M> {
    // Whether a member with so many values can be added to these beside the others.
    pub(crate) fn has_room_beside(&self, others: &VecMembers<M>, count: usize) -> bool
        ensures { IsTrue result → HasRoomBeside others.now self.now count }
    {
        self.count() == count
            && others.count() == count
            && self.limit() == others.limit()
            && self.len() < others.limit() - others.len()
    }

    // Whether these can go after the others in one family. So they can unless a member was added without a look at the others.
    fn are_beside(&self, others: &VecMembers<M>) -> bool
        ensures { IsTrue result → AreBeside others.now self.now }
    {
        others.are_different();
        if self.count() != others.count() || self.len() > others.limit() - others.len() {
            return false;
        }
        for index in 0..self.len() {
            let Some((values, _)) = self.entry(index) else {
                unreachable!()
            };
            if others.has(values) {
                return false;
            }
        }
        true
    }
}

impl<M: Drop> VecMembers<M> {
    // Lets these members, which are young, go unless they can go after the others.
    pub(crate) fn keep_beside(&mut self, others: &VecMembers<M>)
        ensures { AreBeside others.now self.new }
    {
        if !self.are_beside(others) {
            others.are_different();
            self.expect(others.count());
            self.clear();
        }
    }

    // Removes the metric of these values from these members or from the young ones, and returns whether there was one.
    pub(crate) fn remove_of_both(&mut self, young: &mut VecMembers<M>, values: &[&str]) -> bool
        ensures { Locked (AreVecMembers {M = M}) (λ old new.
            Removes (values_eq (shown_texts values.now)) old.entries new.entries) result }
    {
        young.keep_beside(self);
        self.remove(values) || young.remove(values)
    }

    // Removes each metric at which `keep` returns `false` from these members, and then from the young ones.
    pub(crate) fn retain_both<F: FnMut(&LabelValues, &M) -> bool>(
        &mut self,
        young: &mut VecMembers<M>,
        mut keep: F,
    )
        requires { F.IsAlwaysCallable keep }
        ensures { Locked AreVecMembers (λ old new _.
            IsFiltered (CalledAtMember F.FnMut) keep old.entries new.entries) result }
    {
        young.keep_beside(self);
        self.retain_by(&mut keep);
        young.retain_by(&mut keep);
    }
}

//! Items in classes: the states of a model in components, and the components in classes. The classes are numbered by first
//! item: item 0 is in class 0, and each later item is in the class of an earlier one or opens the next.
ghost use Rattle.std.specs.Prelude.{◌≡◌, ℕ, ◌+◌, ◌<◌, ◌≤◌, ◌↔◌, ◌≢◌, max, MatchOption};
ghost use Rattle.sets.specs.Sets.{In};
ghost use Rattle.kripke.specs.Numbering.{First, Ranked, Numbering};
ghost use Rattle.merger.specs.Grids.{at, set_at, slot, Groups, Several, Same, Like};

use sets::Set;

// The items below `len` in classes.
// Kept: arrays of fixed size, each with its count, since the libraries take no heap and stand on std alone.
#[derive(Drop)]
pub(crate) struct Partition {
    len: usize,
    classes: usize,
    // of each item: its class
    class: [u8; 128],
    // of each class: its items
    members: [Set; 128],
    ghost few: { len ≤ 128 },
    ghost most: { classes ≤ len },
    ghost groups: { Groups members class len },
    ghost low: { (k : ℕ) → k < len → at class k < classes },
    ghost some: { (c : ℕ) → c < classes → (set_at members c).bits ≢ 0 },
}

// A number of words below 128, the same for the same words.
fn slot_of(words: u64) -> usize
    ensures { result ≡ slot words }
{
    // the high bits of a product in which all words have a part
    (words.wrapping_mul(0x9E37_79B9_7F4A_7C15) >> 57) as usize
}

// The first item that has the words of item `k`, of those before it, whose slots are in `seen`.
fn first_like(words: &[u64; 128], seen: Set, k: usize) -> Option<usize>
    requires few { k < 128 }
    requires seen { (j : ℕ) → j < k → In seen (slot (at words.now j)) }
    ensures { MatchOption result ((j : ℕ) → j < k → at words.now j ≢ at words.now k) (λ j. (j < k) × (at words.now j ≡ at words.now k)) }
{
    // nearly all words that are new have a slot of their own, and then no item is looked at
    if !seen.has(slot_of(words[k])) {
        return None;
    }
    words[..k].iter().position(|&own| own == words[k])
}

// The class of an item that has none yet.
const OPEN: u8 = 128;

// Puts those of `group` that have the row of item `k` into class `c`. Answers the others.
fn place(rows: &[Set; 128], group: Set, k: usize, class: &mut [u8; 128], c: usize) -> Set
    requires { (k < 128) × (c < 128) }
    ensures others { (j : ℕ) → In result j ↔ (In group j × (Same (set_at rows.now j) (set_at rows.now k) → ⊥)) }
    ensures placed { (j : ℕ) → In group j → Same (set_at rows.now j) (set_at rows.now k) → at class.new j ≡ c }
    ensures kept { (j : ℕ) → (In group j → Same (set_at rows.now j) (set_at rows.now k) → ⊥) → at class.new j ≡ at class.old j }
{
    let row = rows[k];
    let mut others = Set::NONE;
    let mut left = group;
    // no `for` over the group: what a turn takes from `left` is the item as a set
    while let Some((j, rest)) = left.split_first() {
        if rows[j].same(row) {
            class[j] = c as u8;
        } else {
            others = others.or(left.minus(rest));
        }
        left = rest;
    }
    others
}

// Puts item `k`, which is open, into class `c`, with those of `left` that have its row; `left` has the open items of its old
// class. Answers those that are put.
fn open(rows: &[Set; 128], k: usize, left: &mut Set, class: &mut [u8; 128], c: usize) -> Set
    requires low { (k < 128) × (c < 128) }
    requires own { In left.old k }
    ensures group { (j : ℕ) → In result j ↔ (In left.old j × Same (set_at rows.now j) (set_at rows.now k)) }
    ensures rest { (j : ℕ) → In left.new j ↔ (In left.old j × (Same (set_at rows.now j) (set_at rows.now k) → ⊥)) }
    ensures placed { (j : ℕ) → In left.old j → Same (set_at rows.now j) (set_at rows.now k) → at class.new j ≡ c }
    ensures kept { (j : ℕ) → (In left.old j → Same (set_at rows.now j) (set_at rows.now k) → ⊥) → at class.new j ≡ at class.old j }
{
    let group = *left;
    if group.several() {
        let others = place(rows, group, k, class, c);
        *left = others;
        group.minus(others)
    } else {
        // it is the last of its class, and need not be compared
        *left = Set::NONE;
        class[k] = c as u8;
        group
    }
}

// Makes classes of the items below `len`, those together that are of one old class and have the same row. Answers how many.
// At first `left` has the items of each old class, and at last nothing.
// Kept: tables and a count, each a field of a partition or of the old one, and written in place.
fn part(
    rows: &[Set; 128],
    old: &[u8; 128],
    len: usize,
    left: &mut [Set; 128],
    class: &mut [u8; 128],
    members: &mut [Set; 128],
) -> usize
    requires few { len ≤ 128 }
    requires groups { Groups left.old old.now len }
    ensures numbers { Numbering (Like rows.now old.now) len (at class.new) result }
    ensures groups { Groups members.new class.new len }
    ensures spent { (c j : ℕ) → In (set_at left.new c) j → ⊥ }
{
    *class = [OPEN; 128];
    *members = [Set::NONE; 128];
    let mut classes = 0;
    for (k, &own) in old[..len].iter().enumerate() {
        if class[k] == OPEN {
            members[classes] = open(rows, k, &mut left[own as usize], class, classes);
            classes += 1;
        }
    }
    classes
}

impl Partition {
    // Without items.
    pub(crate) fn new() -> Partition
        ensures { (result.len ≡ 0) × (result.classes ≡ 0) }
    {
        Partition {
            len: 0,
            classes: 0,
            class: [0; 128],
            members: [Set::NONE; 128],
        }
    }

    // Takes all items out.
    pub(crate) fn clear(&mut self)
        ensures { (self.new.len ≡ 0) × (self.new.classes ≡ 0) }
    {
        self.len = 0;
        self.classes = 0;
        self.members = [Set::NONE; 128];
    }

    // Puts the items below `len` into the classes that their numbers name; none are here yet.
    // Kept: in place here and below, since a partition that is handed out is copied.
    pub(crate) fn by_numbers(&mut self, number: &[u8; 128], len: usize)
        requires few { len ≤ 128 }
        requires empty { (self.old.len ≡ 0) × (self.old.classes ≡ 0) }
        requires ranked { (m : ℕ) × Ranked len (at number.now) m }
        ensures len { self.new.len ≡ len }
        ensures same { (k : ℕ) → k < len → at self.new.class k ≡ at number.now k }
        ensures ranked { Ranked len (at self.new.class) self.new.classes }
    {
        for &class in &number[..len] {
            self.put(class as usize);
        }
    }

    // Puts the items below `len` together that have the same words; none are here yet.
    pub(crate) fn by_words(&mut self, words: &[u64; 128], len: usize)
        requires few { len ≤ 128 }
        requires empty { (self.old.len ≡ 0) × (self.old.classes ≡ 0) }
        ensures len { self.new.len ≡ len }
        ensures numbers { Numbering (λ j k. at words.now j ≡ at words.now k) len (at self.new.class) self.new.classes }
    {
        let mut seen = Set::NONE;
        for k in 0..len {
            let into = match first_like(words, seen, k) {
                Some(j) => self.class_of(j),
                None => self.classes(),
            };
            seen = seen.with(slot_of(words[k]));
            self.put(into);
        }
    }

    // Parts the items of a class that have other rows.
    pub(crate) fn refine(&mut self, rows: &[Set; 128])
        ensures len { self.new.len ≡ self.old.len }
        ensures numbers { Numbering (Like rows.now self.old.class) self.old.len (at self.new.class) self.new.classes }
    {
        let old = self.class;
        let mut left = self.members;
        self.classes = part(
            rows,
            &old,
            self.len,
            &mut left,
            &mut self.class,
            &mut self.members,
        );
    }

    // Puts the next item into a class that there is, or into the next.
    fn put(&mut self, class: usize)
        requires room { self.old.len < 128 }
        requires class { class ≤ self.old.classes }
        ensures len { self.new.len ≡ self.old.len + 1 }
        ensures classes { self.new.classes ≡ max self.old.classes (class + 1) }
        ensures last { at self.new.class self.old.len ≡ class }
        ensures others { (k : ℕ) → k < self.old.len → at self.new.class k ≡ at self.old.class k }
    {
        self.class[self.len] = class as u8;
        self.members[class] = self.members[class].with(self.len);
        self.classes = self.classes.max(class + 1);
        self.len += 1;
    }

    // How many items there are.
    pub(crate) fn len(&self) -> usize
        ensures { result ≡ self.now.len }
    {
        self.len
    }

    // How many classes there are.
    pub(crate) fn classes(&self) -> usize
        ensures { result ≡ self.now.classes }
    {
        self.classes
    }

    // The class of item `k`.
    pub(crate) fn class_of(&self, k: usize) -> usize
        requires { k < self.now.len }
        ensures { result ≡ at self.now.class k }
    {
        self.class[k] as usize
    }

    // The items of class `c`.
    pub(crate) fn members(&self, c: usize) -> Set
        requires { c < self.now.classes }
        ensures { result ≡ set_at self.now.members c }
    {
        self.members[c]
    }

    // The first item of class `c`.
    pub(crate) fn first(&self, c: usize) -> usize
        requires { c < self.now.classes }
        ensures { First self.now.len (at self.now.class) c result }
    {
        let (first, _) = self.members[c].split_first().unwrap();
        first
    }

    // The items that share the class of item `k`, itself among them.
    pub(crate) fn group_of(&self, k: usize) -> Set
        requires { k < self.now.len }
        ensures { (j : ℕ) → In result j ↔ ((j < self.now.len) × (at self.now.class j ≡ at self.now.class k)) }
    {
        self.members[self.class_of(k)]
    }

    // The other items that share the class of item `k`.
    pub(crate) fn mates_of(&self, k: usize) -> Set
        requires { k < self.now.len }
        ensures { (j : ℕ) → In result j ↔ ((j < self.now.len) × (at self.now.class j ≡ at self.now.class k) × (j ≢ k)) }
    {
        self.group_of(k).minus(Set::NONE.with(k))
    }

    // Clears the marks of items that do not share the class of item `k`.
    pub(crate) fn clear_others(&self, k: usize, marks: &mut [u8; 128])
        requires { k < self.now.len }
        ensures { (j : ℕ) → j < self.now.len → (at marks.new j ≡ 1) ↔ ((at marks.old j ≡ 1) × (at self.now.class j ≡ at self.now.class k)) }
    {
        let own = self.class[k];
        for (j, mark) in marks.iter_mut().enumerate() {
            // written in either case, so that many marks are one step of the machine
            *mark = if self.class[j] == own { *mark } else { 0 };
        }
    }

    // The classes of some items.
    pub(crate) fn classes_of(&self, items: Set) -> Set
        requires { (k : ℕ) → In items k → k < self.now.len }
        ensures { (c : ℕ) → In result c ↔ ((k : ℕ) × In items k × (at self.now.class k ≡ c)) }
    {
        let mut all = Set::NONE;
        let mut left = items;
        // no `for` over the items: a turn drops a whole class, which saves a quarter of the instructions where moves are many
        while let Some((k, _)) = left.split_first() {
            let class = self.class_of(k);
            all = all.with(class);
            left = left.minus(self.members[class]);
        }
        all
    }

    // The items that share their class with another.
    pub(crate) fn shared(&self) -> Set
        ensures { (k : ℕ) → In result k ↔ ((c : ℕ) × (c < self.now.classes) × Several (set_at self.now.members c) × In (set_at self.now.members c) k) }
    {
        let mut all = Set::NONE;
        for class in &self.members[..self.classes] {
            if class.several() {
                all = all.or(*class);
            }
        }
        all
    }
}

//! The second engine: the relation, the components and the reduced model, each straight from its definition and by search,
//! with no thought of speed. It shares no code with the merger.
ghost use Rattle.std.specs.Prelude.{◌≡◌, get_or, set, false, true};
ghost use Rattle.second.specs.Held.{held};

use std::alloc::{AllocError, Global};

/// A set of states: of each state, whether the set has it.
#[derive(PartialEq, Eq, Drop)]
pub struct States {
    has: Vec<bool>,
}

/// A state of a plain model: its words as bits, and the states that it moves to, rising.
#[derive(Clone, Drop)]
pub struct State {
    pub label: u64,
    pub moves: Vec<u16>,
}

/// A model as the list of its states.
#[derive(Drop)]
pub struct Plain {
    pub states: Vec<State>,
}

/// A relation between states: for each, the set of those that it is related to.
#[derive(PartialEq, Eq, Drop)]
pub struct Relation {
    rows: Vec<States>,
}

/// What a round looks at: ST, NEXT and LOOP of a state.
#[derive(Drop)]
pub struct View {
    pub state: u16,
    pub st: States,
    pub next: States,
    pub loops: bool,
}

// The states whose items pass a test, where each state has an item.
pub(crate) fn states_where<T, F: Fn(&T) -> bool>(
    heap: Global,
    items: &[T],
    test: F,
) -> Result<States, AllocError>
    requires { F.IsAlwaysCallable test }
{
    let has = items.iter().map(|item| test(item)).collect(heap)?;
    Ok(States { has })
}

impl States {
    /// Whether the set has a state.
    pub fn contains(&self, s: u16) -> bool
        ensures { result ≡ get_or (held self.now) s false }
    {
        self.has.get(usize::from(s)).copied().unwrap_or(false)
    }

    /// Puts a state of the model into the set. A number that is no state is not put.
    pub fn insert(&mut self, s: u16)
        ensures { held self.new ≡ set (held self.old) s true }
    {
        if let Some(place) = self.has.get_mut(usize::from(s)) {
            *place = true;
        }
    }

    // The lowest state of the set.
    fn first(&self) -> Option<usize> {
        self.has.iter().position(|has| *has)
    }

    // Whether the set has some of these states.
    pub(crate) fn meets(&self, states: &[u16]) -> bool {
        states.iter().any(|s| self.contains(*s))
    }

    // Puts those of some states into the set that another set has. Says whether there were more.
    fn put_inside(&mut self, states: &[u16], inside: &States) -> bool {
        let mut more = false;
        for s in states {
            if inside.contains(*s) && !self.contains(*s) {
                self.insert(*s);
                more = true;
            }
        }
        more
    }

    // Puts those of some states into the set that another set has not.
    fn put_outside(&mut self, states: &[u16], set: &States) {
        for s in states {
            if !set.contains(*s) {
                self.insert(*s);
            }
        }
    }

    // Whether two sets have a state in common.
    fn touches(&self, other: &States) -> bool {
        self.has
            .iter()
            .zip(&other.has)
            .any(|(one, two)| *one && *two)
    }

    // The states where a test of their being in either set says so.
    pub(crate) fn joined<F: Fn(bool, bool) -> bool>(
        &self,
        heap: Global,
        other: &States,
        test: F,
    ) -> Result<States, AllocError>
        requires { F.IsAlwaysCallable test }
    {
        let pairs = self.has.iter().zip(&other.has);
        let has = pairs.map(|(one, two)| test(*one, *two)).collect(heap)?;
        Ok(States { has })
    }
}

impl Relation {
    // Relates each two states whose items agree, where each state has an item.
    fn between<T, F: Fn(&T, &T) -> bool>(
        heap: Global,
        items: &[T],
        agree: F,
    ) -> Result<Relation, AllocError>
        requires { F.IsAlwaysCallable agree }
    {
        let mut rows = Vec::new(heap);
        for one in items {
            rows.push(states_where(heap, items, |two| agree(one, two))?)?;
        }
        Ok(Relation { rows })
    }

    /// Whether two states are related.
    pub fn has(&self, s: u16, t: u16) -> bool {
        self.rows
            .get(usize::from(s))
            .is_some_and(|row| row.contains(t))
    }

    /// The classes of an equivalence, by their first members.
    pub fn classes(&self, heap: Global) -> Result<Vec<&States>, AllocError> {
        let mut all = Vec::new(heap);
        for row in &self.rows {
            if !all.contains(&row) {
                all.push(row)?;
            }
        }
        Ok(all)
    }
}

impl Plain {
    /// How many states there are.
    pub fn size(&self) -> u16 {
        u16::try_from(self.states.len()).unwrap_or(u16::MAX)
    }

    /// No states.
    pub fn nothing(&self, heap: Global) -> Result<States, AllocError> {
        states_where(heap, &self.states, |_| false)
    }

    // One state.
    pub(crate) fn alone(&self, heap: Global, s: u16) -> Result<States, AllocError> {
        let mut set = self.nothing(heap)?;
        set.insert(s);
        Ok(set)
    }

    // The states outside a set that are one move from it.
    fn exits(&self, heap: Global, set: &States) -> Result<States, AllocError> {
        let mut found = self.nothing(heap)?;
        for (s, state) in (0u16..).zip(&self.states) {
            if set.contains(s) {
                found.put_outside(&state.moves, set);
            }
        }
        Ok(found)
    }

    // One step of a search: what is seen, and the states inside that it moves to. Says whether that is more.
    fn spread(&self, seen: &mut States, inside: &States) -> bool {
        let mut more = false;
        for (s, state) in (0u16..).zip(&self.states) {
            if seen.contains(s) {
                more |= seen.put_inside(&state.moves, inside);
            }
        }
        more
    }

    /// The states that are reached from those of a set, themselves included, by moves inside another set.
    pub fn reached(
        &self,
        heap: Global,
        from: &States,
        inside: &States,
    ) -> Result<States, AllocError> {
        let mut seen = from.joined(heap, inside, |one, two| one && two)?;
        // each turn goes one move further
        for _turn in &self.states {
            if !self.spread(&mut seen, inside) {
                break;
            }
        }
        Ok(seen)
    }

    /// The relation of alike states: every word holds at both or at neither.
    pub fn alike(&self, heap: Global) -> Result<Relation, AllocError> {
        Relation::between(heap, &self.states, |one, two| one.label == two.label)
    }

    // Whether a state of a set is reached again from those that it moves to, by moves inside the set.
    fn returns(
        &self,
        heap: Global,
        s: u16,
        state: &State,
        set: &States,
    ) -> Result<bool, AllocError> {
        let mut next = self.nothing(heap)?;
        let _ = next.put_inside(&state.moves, set);
        Ok(set.contains(s) && self.reached(heap, &next, set)?.contains(s))
    }

    // Whether a set holds a cycle.
    fn cycles(&self, heap: Global, set: &States) -> Result<bool, AllocError> {
        for (s, state) in (0u16..).zip(&self.states) {
            if self.returns(heap, s, state, set)? {
                return Ok(true);
            }
        }
        Ok(false)
    }

    /// ST, NEXT and LOOP of each state, by a relation.
    pub fn views(&self, heap: Global, relation: &Relation) -> Result<Vec<View>, AllocError> {
        let mut views = Vec::new(heap);
        for (state, class) in (0u16..).zip(&relation.rows) {
            let st = self.reached(heap, &self.alone(heap, state)?, class)?;
            let next = self.exits(heap, &st)?;
            let loops = self.cycles(heap, &st)?;
            views.push(View {
                state,
                st,
                next,
                loops,
            })?;
        }
        Ok(views)
    }

    /// The relation after one more round.
    pub fn refined(&self, heap: Global, relation: &Relation) -> Result<Relation, AllocError> {
        let views = self.views(heap, relation)?;
        Relation::between(heap, &views, |one, two| {
            relation.has(one.state, two.state) && one.agrees(two, relation)
        })
    }

    /// The relation of states in one component: alike, and reaching one another by moves among alike states.
    pub fn joined(&self, heap: Global) -> Result<Relation, AllocError> {
        let views = self.views(heap, &self.alike(heap)?)?;
        Relation::between(heap, &views, |one, two| {
            one.st.contains(two.state) && two.st.contains(one.state)
        })
    }

    /// The reduced model by a settled relation: the words of each class's first member, a move to each other class in the
    /// members' NEXT, and to itself where LOOP is yes.
    pub fn merged(&self, heap: Global, relation: &Relation) -> Result<Plain, AllocError> {
        let views = self.views(heap, relation)?;
        let classes = relation.classes(heap)?;
        let mut states = Vec::new(heap);
        for class in &classes {
            let leads = |into: &&States| {
                views.iter().any(|view| class.contains(view.state) && view.leads(class, into))
            };
            let into = (0u16..).zip(&classes).filter(|(_, into)| leads(*into));
            let moves = into.map(|(number, _)| number).collect(heap)?;
            let first = class.first().and_then(|s| self.states.get(s));
            let label = first.map_or(0, |state| state.label);
            states.push(State { label, moves })?;
        }
        Ok(Plain { states })
    }
}

impl View {
    // Whether a state is related to one in NEXT.
    fn matches(&self, u: u16, relation: &Relation) -> bool {
        relation
            .rows
            .get(usize::from(u))
            .is_some_and(|row| row.touches(&self.next))
    }

    // Whether each state in the one's NEXT is related to one in the other's.
    fn is_matched(&self, other: &View, relation: &Relation) -> bool {
        (0u16..)
            .zip(&self.next.has)
            .all(|(u, has)| !*has || other.matches(u, relation))
    }

    // Whether the two states are still together after this round.
    fn agrees(&self, other: &View, relation: &Relation) -> bool {
        self.loops == other.loops
            && self.is_matched(other, relation)
            && other.is_matched(self, relation)
    }

    // Whether the state makes its class move into another: by its NEXT, or by its LOOP where that is the class itself.
    fn leads(&self, class: &States, into: &States) -> bool {
        if class == into {
            self.loops
        } else {
            self.next.touches(into)
        }
    }
}

ghost use Rattle.std.specs.Prelude.{◌≡◌, ◌≤◌, ◌<◌, true, false, length, Some, Ok, IfOk, IfSome};
ghost use Rattle.dht_linkto.specs.Search.{search_of, hashed_set, set_named, led, is_set};
ghost use Rattle.dht_linkto.specs.Steps.{next_of, reading, next, after, next_by, after_item, with_link, sets_after_link, WaitsFor, AsksOne};

use crate::found::{Ended, Found, Next};
use crate::set_names::SetNames;
use crate::sets::{first_left, hashed_set, is_link, other_set};
use fop_types::{Gfid, IoError, Item, Seq, Span, find_item};
use std::alloc::{AllocError, Global};
use std::marker::Model;

/// The search for one name of a directory over the sets, a set at a time. Contracts see a `Search`.
#[derive(Drop)]
pub struct Lookup {
    parent: Gfid,
    name: Seq<u8>,
    names: SetNames,
    hashed: u8,
    asked: Option<u8>,
    // The set to which the link on the hashed set led, and the first set that was not read in turn yet.
    linked: Option<u8>,
    first: u8,
    has_link: bool,
}

impl Model for Lookup {
    ghost use Rattle.std.specs.Prelude.{◌≡◌, ◌<◌, true, None, length, IfSome};
    ghost use Rattle.dht_linkto.specs.Search.{Search, is_set};
    ghost use Rattle.dht_linkto.specs.Cursor.{left_from};

    ghost Value = { Search };

    ghost view = { λ l. record {
      parent = l.parent;
      name = l.name;
      names = l.names;
      hashed = l.hashed;
      asked = l.asked;
      rest = left_from l.first (length l.names) l.hashed l.linked;
      has_link = l.has_link;
    } };

    // The hashed set and the one that is asked are sets; no link was followed while the hashed set is read.
    ghost invariant = { λ l. record {
      hashed : l.hashed < length l.names;
      asked : IfSome l.asked (λ set. set < length l.names);
      unlinked : is_set l.asked l.hashed ≡ true → l.linked ≡ None;
    } };
}

impl Lookup {
    /// Begins the search for a name of the directory `parent`, and gives the set that is asked first: the one to
    /// which the name belongs by the directory's layout. The layout has a place for each of the sets, whose
    /// names, in order, are `names`; there are 1 to 255.
    ///
    /// # Errors
    /// Out of memory.
    pub fn begin(
        alloc: Global,
        parent: Gfid,
        name: &[u8],
        layout: &[Option<Span>],
        names: &[Seq<u8>],
    ) -> Result<(Lookup, u8), AllocError>
        requires some { 1 ≤ length names.now }
        requires few { length names.now ≤ 255 }
        requires places { length layout.now ≡ length names.now }
        ensures lookup { IfOk result (λ begun. begun.0 ≡ search_of parent name.now names.now (hashed_set layout.now name.now)) }
        ensures asked { IfOk result (λ begun. begun.1 ≡ hashed_set layout.now name.now) }
        ensures within { IfOk result (λ begun. begun.1 < length names.now) }
    {
        let hashed = hashed_set(layout, name);
        let name = Seq::from_bytes(alloc, name)?;
        let names = SetNames::copied(alloc, names)?;
        Ok((Lookup::over(parent, name, names, hashed), hashed))
    }

    /// Begins the search for a name that belongs to the set `hashed`, one of those that have these names, which is asked
    /// first. It allocates nothing.
    #[tactic(auto, using(crate::proofs::Left::left_all))]
    pub fn over(parent: Gfid, name: Seq<u8>, names: SetNames, hashed: u8) -> Lookup
        requires { hashed < length names }
        ensures { result ≡ search_of parent name names hashed }
    {
        Lookup {
            parent,
            name,
            names,
            hashed,
            asked: Some(hashed),
            linked: None,
            first: 0,
            has_link: false,
        }
    }

    /// The directory.
    pub fn parent(&self) -> Gfid
        ensures { result ≡ self.now.parent }
    {
        self.parent
    }

    /// The set whose names are asked for; none once the lookup is done.
    pub fn asked(&self) -> Option<u8>
        ensures asked { result ≡ self.now.asked }
        ensures within { IfSome result (λ set. set < length self.now.names) }
    {
        self.asked
    }

    /// Takes what a set shows of the directory's names, or the I/O error by which it could not be read. The set
    /// is the one that was asked last. Look first at whether the directory was removed. It allocates nothing, in time
    /// of the number of names.
    pub fn answer(&mut self, set: u8, items: Result<Seq<Item>, IoError>) -> Result<Next, AllocError>
        requires { self.old.asked ≡ Some set }
        ensures next { result ≡ Ok (next self.old set items) }
        ensures state { self.new ≡ after self.old set items }
        ensures asked { IfOk result (λ next. WaitsFor next self.new.asked) }
        ensures names { self.new.names ≡ self.old.names }
        ensures within { IfOk result (λ next. AsksOne next (length self.new.names)) }
        ensures moved { is_set self.new.asked self.new.hashed ≡ false }
    {
        match items {
            Ok(items) => match find_item(items.as_slice(), self.name.as_slice()) {
                None => Ok(self.go_on()),
                Some(item) => Ok(self.see(set, item)),
            },
            Err(error) => {
                self.asked = None;
                Ok(Next::Done(Found::Io(error)))
            }
        }
    }

    /// What is left of the search.
    pub fn end(self) -> Ended
        ensures end { result ≡ record { parent = self.parent; name = self.name; names = self.names; hashed = self.hashed; has_link = self.has_link } }
        ensures within { result.hashed < length result.names }
    {
        Ended {
            parent: self.parent,
            name: self.name,
            names: self.names,
            hashed: self.hashed,
            has_link: self.has_link,
        }
    }

    // The set that was asked shows an item of the name.
    fn see(&mut self, set: u8, item: &Item) -> Next
        requires { self.old.asked ≡ Some set }
        ensures next { result ≡ next_by self.old set (Some item.now) }
        ensures state { self.new ≡ after_item self.old set (Some item.now) }
        ensures asked { WaitsFor result self.new.asked }
        ensures names { self.new.names ≡ self.old.names }
        ensures within { AsksOne result (length self.new.names) }
        ensures moved { is_set self.new.asked self.new.hashed ≡ false }
    {
        if is_link(item.kind) {
            self.see_link(set, item.target.as_slice())
        } else {
            self.asked = None;
            Next::Done(Found::Item {
                set,
                gfid: item.gfid,
                kind: item.kind,
            })
        }
    }

    // The set that was asked shows a link of the name.
    fn see_link(&mut self, set: u8, target: &[u8]) -> Next
        requires { self.old.asked ≡ Some set }
        ensures next { result ≡ next_of (sets_after_link self.old set target.now) }
        ensures state { self.new ≡ reading (with_link self.old set) (sets_after_link self.old set target.now) }
        ensures asked { WaitsFor result self.new.asked }
        ensures names { self.new.names ≡ self.old.names }
        ensures within { AsksOne result (length self.new.names) }
        ensures moved { is_set self.new.asked self.new.hashed ≡ false }
    {
        if set == self.hashed {
            self.follow(target)
        } else {
            self.go_on()
        }
    }

    // The hashed set shows a link of the name.
    fn follow(&mut self, target: &[u8]) -> Next
        requires { self.old.asked ≡ Some self.old.hashed }
        ensures next { result ≡ next_of (led self.old.hashed self.old.rest (set_named self.old.names target.now)) }
        ensures state { self.new ≡ reading (record self.old { has_link = true }) (led self.old.hashed self.old.rest (set_named self.old.names target.now)) }
        ensures asked { WaitsFor result self.new.asked }
        ensures names { self.new.names ≡ self.old.names }
        ensures within { AsksOne result (length self.new.names) }
        ensures moved { is_set self.new.asked self.new.hashed ≡ false }
    {
        self.has_link = true;
        match other_set(&self.names, self.hashed, target) {
            Some(set) => {
                self.linked = Some(set);
                self.asked = Some(set);
                Next::Ask(set)
            }
            None => self.go_on(),
        }
    }

    // The next of the sets that are left is asked.
    fn go_on(&mut self) -> Next
        ensures next { result ≡ next_of self.old.rest }
        ensures state { self.new ≡ reading self.old self.old.rest }
        ensures asked { WaitsFor result self.new.asked }
        ensures names { self.new.names ≡ self.old.names }
        ensures within { AsksOne result (length self.new.names) }
        ensures moved { is_set self.new.asked self.new.hashed ≡ false }
    {
        let count = self.names.count();
        match first_left(self.first, count, self.hashed, self.linked) {
            Some(set) => {
                self.asked = Some(set);
                self.first = set + 1;
                Next::Ask(set)
            }
            None => {
                self.asked = None;
                Next::Done(Found::Absent)
            }
        }
    }
}

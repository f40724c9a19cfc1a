ghost use Rattle.std.specs.Prelude.{◌≡◌, ◌<◌, ◌≤◌, ◌∷◌, ◌++◌, suc, take, drop, length, insert, IfSome, IfNone, IfOk, IfErr, OnOk, OnErr};
ghost use Rattle.std.specs.List.{remove};
ghost use Rattle.std.specs.Option.{option_copied};
ghost use Rattle.fop_types.specs.Names.{attr_named, with_attr, without_attr};
ghost use Rattle.contents.specs.Rising.{Rise, attr_names};
ghost use Rattle.contents.specs.declared.halves.Search.TheVariants.{Halves};

use crate::halves::{Search, place_by_halves, thing_at};
use fop_types::{Attr, Seq};
use std::alloc::AllocError;
use std::cmp::Ordering;

/// The attribute of a name, `None` where there is none. The cost is the number of attributes.
pub fn find_attr<'a>(attrs: &'a [Attr], name: &[u8]) -> Option<&'a Attr>
    ensures { option_copied result ≡ attr_named attrs.now name.now }
{
    for attr in attrs {
        if attr.name.as_slice() == name {
            return Some(attr);
        }
    }
    None
}

// The attribute of a name, where the names rise.
fn attr_halved<'a>(attrs: &'a [Attr], name: &[u8]) -> Option<&'a Attr>
    requires { Rise (attr_names attrs.now) }
    ensures { option_copied result ≡ attr_named attrs.now name.now }
{
    match place_by_halves(attrs, name) {
        Ok(index) => thing_at(attrs, index),
        Err(_) => None,
    }
}

/// The same as [`find_attr`], with a search that the caller chooses.
pub(crate) fn find_attr_by<'a>(attrs: &'a [Attr], name: &[u8], search: Search) -> Option<&'a Attr>
    requires { search ≡ Halves → Rise (attr_names attrs.now) }
    ensures { option_copied result ≡ attr_named attrs.now name.now }
{
    match search {
        Search::Halves => attr_halved(attrs, name),
        Search::InTurn => find_attr(attrs, name),
    }
}

// The place of an attribute by rising name: `Ok` of the place of an equal name, or `Err` of the place before which
// it goes.
fn place_of(attrs: &[Attr], attr: &Attr) -> Result<usize, usize>
    ensures taken { IfOk result (λ i. (i < length attrs.now) × (with_attr attrs.now attr.now ≡ take i attrs.now ++ attr.now ∷ drop (suc i) attrs.now)) }
    ensures free { IfErr result (λ i. (i ≤ length attrs.now) × (with_attr attrs.now attr.now ≡ insert attrs.now i attr.now)) }
{
    let mut place = 0;
    for other in attrs {
        match attr.name.as_slice().cmp(other.name.as_slice()) {
            Ordering::Less => return Err(place),
            Ordering::Equal => return Ok(place),
            Ordering::Greater => place += 1,
        }
    }
    Err(place)
}

fn place_of_halved(attrs: &[Attr], attr: &Attr) -> Result<usize, usize>
    requires { Rise (attr_names attrs.now) }
    ensures taken { IfOk result (λ i. (i < length attrs.now) × (with_attr attrs.now attr.now ≡ take i attrs.now ++ attr.now ∷ drop (suc i) attrs.now)) }
    ensures free { IfErr result (λ i. (i ≤ length attrs.now) × (with_attr attrs.now attr.now ≡ insert attrs.now i attr.now)) }
{
    match place_by_halves(attrs, attr.name.as_slice()) {
        Ok(index) => Ok(index),
        Err(index) => Err(index),
    }
}

fn place_for(attrs: &[Attr], attr: &Attr, search: Search) -> Result<usize, usize>
    requires { search ≡ Halves → Rise (attr_names attrs.now) }
    ensures taken { IfOk result (λ i. (i < length attrs.now) × (with_attr attrs.now attr.now ≡ take i attrs.now ++ attr.now ∷ drop (suc i) attrs.now)) }
    ensures free { IfErr result (λ i. (i ≤ length attrs.now) × (with_attr attrs.now attr.now ≡ insert attrs.now i attr.now)) }
{
    match search {
        Search::Halves => place_of_halved(attrs, attr),
        Search::InTurn => place_of(attrs, attr),
    }
}

/// Puts an attribute at its place by rising bytes of the name; one of an equal name is replaced. The cost is the
/// search of the place and one move of the attributes after it.
///
/// # Errors
/// Out of memory, with the attributes unchanged.
pub fn insert_attr(attrs: &mut Seq<Attr>, attr: Attr) -> Result<(), AllocError>
    ensures ok { OnOk result (attrs.new ≡ with_attr attrs.old attr) }
    ensures err { OnErr result (attrs.new ≡ attrs.old) }
{
    insert_attr_by(attrs, attr, Search::InTurn)
}

/// The same, with a search that the caller chooses.
#[tactic(auto, using(fop_types::proofs::Places::set_parts))]
pub(crate) fn insert_attr_by(
    attrs: &mut Seq<Attr>,
    attr: Attr,
    search: Search,
) -> Result<(), AllocError>
    requires { search ≡ Halves → Rise (attr_names attrs.old) }
    ensures ok { OnOk result (attrs.new ≡ with_attr attrs.old attr) }
    ensures err { OnErr result (attrs.new ≡ attrs.old) }
{
    match place_for(attrs.as_slice(), &attr, search) {
        Ok(index) => {
            attrs.set(index, attr);
            Ok(())
        }
        Err(index) => {
            attrs.insert(index, attr)?;
            Ok(())
        }
    }
}

// The place of the attribute of a name, where the names rise.
fn place_halved(attrs: &[Attr], name: &[u8]) -> Option<usize>
    requires { Rise (attr_names attrs.now) }
    ensures found { IfSome result (λ i. (i < length attrs.now) × (without_attr attrs.now name.now ≡ remove attrs.now i)) }
    ensures none { IfNone result (without_attr attrs.now name.now ≡ attrs.now) }
{
    match place_by_halves(attrs, name) {
        Ok(index) => Some(index),
        Err(_) => None,
    }
}

// The place of the attribute of a name, found one by one.
fn place_in_turn(attrs: &[Attr], name: &[u8]) -> Option<usize>
    ensures found { IfSome result (λ i. (i < length attrs.now) × (without_attr attrs.now name.now ≡ remove attrs.now i)) }
    ensures none { IfNone result (without_attr attrs.now name.now ≡ attrs.now) }
{
    let mut place = 0;
    for attr in attrs {
        if attr.name.as_slice() == name {
            return Some(place);
        }
        place += 1;
    }
    None
}

fn place_named(attrs: &[Attr], name: &[u8], search: Search) -> Option<usize>
    requires { search ≡ Halves → Rise (attr_names attrs.now) }
    ensures found { IfSome result (λ i. (i < length attrs.now) × (without_attr attrs.now name.now ≡ remove attrs.now i)) }
    ensures none { IfNone result (without_attr attrs.now name.now ≡ attrs.now) }
{
    match search {
        Search::Halves => place_halved(attrs, name),
        Search::InTurn => place_in_turn(attrs, name),
    }
}

/// Takes the attribute of a name out, if there is one.
pub fn remove_attr(attrs: &mut Seq<Attr>, name: &[u8])
    ensures { attrs.new ≡ without_attr attrs.old name.now }
{
    remove_attr_by(attrs, name, Search::InTurn);
}

/// The same, with a search that the caller chooses.
pub(crate) fn remove_attr_by(attrs: &mut Seq<Attr>, name: &[u8], search: Search)
    requires { search ≡ Halves → Rise (attr_names attrs.old) }
    ensures { attrs.new ≡ without_attr attrs.old name.now }
{
    match place_named(attrs.as_slice(), name, search) {
        Some(index) => {
            let _attr = attrs.remove(index);
        }
        None => {}
    }
}

ghost use Rattle.std.specs.Prelude.{◌≡◌, ◌↔◌, ◌<◌, IsTrue, IfOk, OnOk, OnErr, IsErrOf, is_none, nat_le, ◌&&◌, length, slice_get, Some};
ghost use Rattle.std.specs.Option.{option_copied};
ghost use Rattle.dt_selectors.specs.Names.{is_name, position_of};
ghost use Rattle.dt_script.specs.Growth.{GrewAtEnd};
ghost use Rattle.dt_script.specs.LawfulBook.{LawfulBook};
ghost use Rattle.dt_script.specs.NameBook.{empty_book, is_within_limits, with_class_name, with_selector_name, with_body_name, number_in};

use dt_definitions::{BODIES, BodyNo, CLASSES, ClassNo, NoMemory, SELECTORS, SelNo};
use dt_selectors::{NameFault, Names};
use std::alloc::Global;
use std::marker::Model;

/// The names of a script: classes, selectors and bodies, each numbered in the order of their first appearance.
#[derive(Drop)]
pub struct NameBook {
    classes: Names,
    selectors: Names,
    bodies: Names,
}

impl Model for NameBook {
    ghost use Rattle.std.specs.Prelude.{◌≡◌};
    ghost use Rattle.dt_graph.specs.declared.limits.TheConstants.{CLASSES};
    ghost use Rattle.dt_selectors.specs.declared.limits.TheConstants.{SELECTORS, BODIES};
    ghost use Rattle.dt_script.specs.NameBook as shown;

    ghost Value = { shown.NameBook };

    ghost view = { λ b. record { classes = b.classes.texts; selectors = b.selectors.texts; bodies = b.bodies.texts } };

    ghost invariant = { λ b. (b.classes.limit ≡ CLASSES) × (b.selectors.limit ≡ SELECTORS) × (b.bodies.limit ≡ BODIES) };
}

impl NameBook {
    /// No name yet. It takes memory.
    pub fn new(alloc: Global) -> Result<NameBook, NoMemory>
        ensures { IfOk result (λ book. book ≡ empty_book) }
    {
        Ok(NameBook {
            classes: Names::new(alloc, u32::from(CLASSES))?,
            selectors: Names::new(alloc, u32::from(SELECTORS))?,
            bodies: Names::new(alloc, BODIES)?,
        })
    }

    /// What holds of every book. It does nothing: a caller whose reasoning needs this calls it.
    pub fn law(&self)
        ensures fits { IsTrue (is_within_limits self.now) }
        ensures lawful { LawfulBook self.now }
    {
        self.classes.law();
        self.selectors.law();
        self.bodies.law();
    }

    /// The number of the class with this name.
    ///
    /// [`NamesFull`](NameFault::NamesFull) exactly where the name is new and there are [`CLASSES`] names of classes.
    /// After an error the names are as they were.
    pub fn class(&mut self, name: &[u8]) -> Result<ClassNo, NameFault>
        requires { IsTrue (is_name name.now) }
        ensures ok { OnOk result (self.new ≡ with_class_name self.old name.now) }
        ensures number { IfOk result (λ class. class ≡ number_in self.new.classes name.now) }
        ensures stored { IfOk result (λ class. slice_get self.new.classes class ≡ Some name.now) }
        ensures full { IsErrOf result NameFault.NamesFull
            ↔ IsTrue (is_none (position_of name.now self.old.classes) && nat_le CLASSES (length self.old.classes)) }
        ensures err { OnErr result (self.new ≡ self.old) }
        ensures grew { GrewAtEnd self.old self.new }
    {
        let number = self.classes.number(name)?;
        match ClassNo::new(number as u16) {
            Some(class) => Ok(class),
            None => unreachable!(),
        }
    }

    /// The number of the selector with this name.
    ///
    /// [`NamesFull`](NameFault::NamesFull) exactly where the name is new and there are [`SELECTORS`] names of
    /// selectors. After an error the names are as they were.
    pub fn selector(&mut self, name: &[u8]) -> Result<SelNo, NameFault>
        requires { IsTrue (is_name name.now) }
        ensures ok { OnOk result (self.new ≡ with_selector_name self.old name.now) }
        ensures number { IfOk result (λ selector. selector ≡ number_in self.new.selectors name.now) }
        ensures stored { IfOk result (λ selector. slice_get self.new.selectors selector ≡ Some name.now) }
        ensures full { IsErrOf result NameFault.NamesFull
            ↔ IsTrue (is_none (position_of name.now self.old.selectors) && nat_le SELECTORS (length self.old.selectors)) }
        ensures err { OnErr result (self.new ≡ self.old) }
        ensures grew { GrewAtEnd self.old self.new }
    {
        let number = self.selectors.number(name)?;
        match SelNo::new(number as u16) {
            Some(selector) => Ok(selector),
            None => unreachable!(),
        }
    }

    /// The number of the body with this name.
    ///
    /// [`NamesFull`](NameFault::NamesFull) exactly where the name is new and there are [`BODIES`] names of bodies.
    /// After an error the names are as they were.
    pub fn body(&mut self, name: &[u8]) -> Result<BodyNo, NameFault>
        requires { IsTrue (is_name name.now) }
        ensures ok { OnOk result (self.new ≡ with_body_name self.old name.now) }
        ensures number { IfOk result (λ body. body ≡ number_in self.new.bodies name.now) }
        ensures stored { IfOk result (λ body. slice_get self.new.bodies body ≡ Some name.now) }
        ensures full { IsErrOf result NameFault.NamesFull
            ↔ IsTrue (is_none (position_of name.now self.old.bodies) && nat_le BODIES (length self.old.bodies)) }
        ensures err { OnErr result (self.new ≡ self.old) }
        ensures grew { GrewAtEnd self.old self.new }
    {
        let number = self.bodies.number(name)?;
        Ok(BodyNo::new(number as u16))
    }

    /// The name of the class; `None` exactly where no class has this number.
    pub fn class_name(&self, class: ClassNo) -> Option<&[u8]>
        ensures { option_copied result ≡ slice_get self.now.classes class }
    {
        self.classes.text(u32::from(class.number()))
    }

    /// The name of the selector; `None` exactly where no selector has this number.
    pub fn selector_name(&self, selector: SelNo) -> Option<&[u8]>
        ensures { option_copied result ≡ slice_get self.now.selectors selector }
    {
        self.selectors.text(u32::from(selector.number()))
    }

    /// How many classes have a name.
    pub fn class_count(&self) -> u32
        ensures { result ≡ length self.now.classes }
    {
        self.classes.len()
    }

    /// How many selectors have a name.
    pub fn selector_count(&self) -> u32
        ensures { result ≡ length self.now.selectors }
    {
        self.selectors.len()
    }

    // The name of the selector with this number, which may be any.
    pub(crate) fn selector_text(&self, selector: u16) -> Option<&[u8]>
        ensures { option_copied result ≡ slice_get self.now.selectors selector }
    {
        self.selectors.text(u32::from(selector))
    }

    // The name of the class with this number, which may be any.
    pub(crate) fn class_text(&self, class: u16) -> Option<&[u8]>
        ensures { option_copied result ≡ slice_get self.now.classes class }
    {
        self.classes.text(u32::from(class))
    }

    /// The name of the body; `None` exactly where no body has this number.
    pub fn body_name(&self, body: BodyNo) -> Option<&[u8]>
        ensures { option_copied result ≡ slice_get self.now.bodies body }
    {
        self.bodies.text(u32::from(body.number()))
    }
}

ghost use Rattle.std.specs.Prelude.{◌≡◌, ◌++◌, ◌∷◌, [], IfOk, OnOk, ◌≤◌, length};
ghost use Rattle.pts_printed.specs.Choice as choice;
ghost use Rattle.pts_printer.specs.Calls.{forbidden, texts};

use pts_names::{Name, Text};
use std::alloc::{AllocError, AllocFailed, Global};
use std::marker::Model;

/// The names that may not be chosen. Contracts see those of variables, and the constants.
#[derive(Drop)]
pub(crate) struct Taken<'a> {
    variables: Vec<Text>,
    constants: Vec<&'a str>,
}

impl<'a> Model for Taken<'a> {
    ghost use Rattle.pts_printer.specs.Calls.{Forbidden, texts};

    ghost Value = { Forbidden };

    ghost view = { λ t. record { variables = t.variables.items; constants = texts t.constants.items } };
}

impl<'a> Taken<'a> {
    /// None. It takes no memory.
    pub(crate) fn new(alloc: Global) -> Taken<'a>
        ensures variables { result.variables ≡ [] }
        ensures constants { result.constants ≡ [] }
    {
        Taken {
            variables: Vec::new(alloc),
            constants: Vec::new(alloc),
        }
    }

    /// One more name of a variable.
    pub(crate) fn add_variable(&mut self, name: Text) -> Result<(), AllocFailed<Text>>
        ensures variables { OnOk result (self.new.variables ≡ self.old.variables ++ name ∷ []) }
        ensures constants { OnOk result (self.new.constants ≡ self.old.constants) }
    {
        self.variables.push(name)
    }

    /// One more constant.
    pub(crate) fn add_constant(&mut self, name: &'a str) -> Result<(), AllocError>
        ensures variables { OnOk result (self.new.variables ≡ self.old.variables) }
        ensures constants { OnOk result (self.new.constants ≡ self.old.constants ++ name.now ∷ []) }
    {
        Ok(self.constants.push(name)?)
    }

    /// The names of variables, in their order. It takes no memory.
    pub(crate) fn into_variables(self) -> Vec<Text>
        ensures { result.items ≡ self.entry.variables }
    {
        let Taken { variables, .. } = self;
        variables
    }

    /// The name that is chosen for a variable called `name`, which is used or not.
    #[tactic(auto, unfolding(pts_printed::specs::Choice::choice))]
    pub(crate) fn choice(&self, alloc: Global, name: &Name, used: bool) -> Result<Text, AllocError>
        ensures { IfOk result (λ text. text ≡ choice.choice name.now used (forbidden self.now)) }
    {
        let text = self.allowed(alloc, base(name, used))?;
        if text.text().len() > 128 {
            return self.allowed(alloc, "x");
        }
        Ok(text)
    }

    // This name, or the first with a number that is allowed.
    fn allowed(&self, alloc: Global, name: &str) -> Result<Text, AllocError>
        ensures { IfOk result (λ text. text ≡ choice.allowed name.now (forbidden self.now)) }
    {
        if self.has(name) {
            return self.numbered(alloc, name);
        }
        Ok(Text::of(String::from_str(alloc, name)?))
    }

    // The name with the least number from 1 on that makes it allowed.
    fn numbered(&self, alloc: Global, name: &str) -> Result<Text, AllocError>
        ensures { IfOk result (λ text. text ≡ choice.numbered 1 (length (forbidden self.now)) name.now (forbidden self.now)) }
    {
        let count = self.variables.len() + self.constants.len();
        for number in 1..count + 1 {
            let text = format!(in alloc; "{name}{number}")?;
            if !self.has(text.as_str()) {
                return Ok(Text::of(text));
            }
        }
        let number = count + 1;
        Ok(Text::of(format!(in alloc; "{name}{number}")?))
    }

    // Whether the name is one of these.
    #[tactic(auto, using(crate::proofs::Names::among_both))]
    fn has(&self, name: &str) -> bool
        ensures { result ≡ choice.is_among name.now (forbidden self.now) }
    {
        is_variable(&self.variables, name) || is_constant(&self.constants, name)
    }
}

fn is_variable(names: &[Text], name: &str) -> bool
    ensures { result ≡ choice.is_among name.now names.now }
{
    for known in names {
        if name == known.text() {
            return true;
        }
    }
    false
}

fn is_constant(names: &[&str], name: &str) -> bool
    ensures { result ≡ choice.is_among name.now (texts names.now) }
{
    for known in names {
        if name == *known {
            return true;
        }
    }
    false
}

/// The name at which the choice begins.
pub(crate) fn base(name: &Name, used: bool) -> &str
    ensures base { result.now ≡ choice.base name.now used }
    ensures fits { length result.now ≤ 128 }
{
    if name.parts() != 1 {
        return "x";
    }
    if !used {
        return name.text();
    }
    if name.text() == "_" {
        return "x";
    }
    name.text()
}

//! Which rule an image breaks, and where.
ghost use Rattle.std.specs.Prelude.{◌≡◌};
ghost use Rattle.bim_rules.specs.Breaches.{rule_number, table_number, comes_before, mark, earlier, first_of};

/// The rules of an image, in their order.
#[derive(Clone, Copy, PartialEq, Debug, Drop)]
pub enum Rule {
    /// Each number is within its table, and each operand is one of the values that mean something.
    Numbers,
    /// Types are made of earlier ones and flat; parameters fit their slots, each with a name and a slot
    /// of its own.
    Types,
    /// Routines and points ascend; these and the named addresses are those of instructions, a named one in
    /// the part of the instruction that names it.
    Addresses,
    /// Each part has an instruction, and its last one leaves it.
    Ends,
    /// The stack is known at each instruction.
    Stacks,
    /// A named address that does not lie behind is that of a tick.
    Ticks,
    /// An instruction finds on the stack what it wants.
    Operands,
    /// At each named address a point tells the stack that the jump leaves.
    Targets,
    /// A return stands in a routine, with just its result on the stack.
    Returns,
    /// The stack is at most 40,000 high.
    Heights,
}

impl Rule {
    /// 1 to 10.
    pub fn number(self) -> u32
        ensures { result ≡ rule_number self }
    {
        match self {
            Rule::Numbers => 1,
            Rule::Types => 2,
            Rule::Addresses => 3,
            Rule::Ends => 4,
            Rule::Stacks => 5,
            Rule::Ticks => 6,
            Rule::Operands => 7,
            Rule::Targets => 8,
            Rule::Returns => 9,
            Rule::Heights => 10,
        }
    }
}

/// Where a breach stands: in a table, in their order, or in the code.
#[derive(Clone, Copy, PartialEq, Debug, Drop)]
pub enum Table {
    Types,
    Parameters,
    Globals,
    Routines,
    Points,
    Code,
}

impl Table {
    fn number(self) -> u32
        ensures { result ≡ table_number self }
    {
        match self {
            Table::Types => 0,
            Table::Parameters => 1,
            Table::Globals => 2,
            Table::Routines => 3,
            Table::Points => 4,
            Table::Code => 5,
        }
    }
}

/// A rule that is broken, and the first place: the number of a table's entry, from 0, or an address of
/// the code.
#[derive(Clone, Copy, PartialEq, Debug, Drop)]
pub struct Breach {
    pub rule: Rule,
    pub table: Table,
    pub at: u32,
}

fn comes_before(a: Breach, b: Breach) -> bool
    ensures { result ≡ comes_before a b }
{
    if a.rule.number() == b.rule.number() {
        if a.table.number() == b.table.number() {
            a.at < b.at
        } else {
            a.table.number() < b.table.number()
        }
    } else {
        a.rule.number() < b.rule.number()
    }
}

fn earlier(found: Option<Breach>, b: Breach) -> Option<Breach>
    ensures { result ≡ earlier found b }
{
    match found {
        None => Some(b),
        Some(a) => { if comes_before(b, a) { Some(b) } else { Some(a) } }
    }
}

/// What was found before, or this place where the rule is not kept there, whichever comes first.
pub fn note(found: Option<Breach>, rule: Rule, table: Table, at: u32, kept: bool) -> Option<Breach>
    ensures { result ≡ first_of found (mark rule table at kept) }
{
    if kept {
        found
    } else {
        earlier(found, Breach { rule, table, at })
    }
}

ghost use Rattle.std.specs.Prelude.{◌≡◌, true, false, [], ◌∷◌, ◌++◌, IfOk, length, map};
ghost use Rattle.ct_regex.specs.Tree.{repeat, sequence_of, branch_of};
ghost use Rattle.ct_regex.specs.declared.tree.Quantifier.TheVariants.{OneOrMore};
ghost use Rattle.ct_regex.specs.Meaning.{meaning, byte_test};
ghost use Rattle.ct_regex.specs.Walk.{step_of, of_one as one_step, fork, or_else, join, no_marks, steps_of};

use crate::tree::{ByteTest, Node, Quantifier};
use crate::walk::Step;
use ct_base::NoMemory;
use std::alloc::Global;

/// The steps of a pattern, and the marks with which the walks over it begin.
#[derive(Drop)]
pub struct Program {
    pub steps: Vec<Step>,
    pub marks: Vec<bool>,
}

impl Program {
    pub(crate) fn new(alloc: Global, root: &Node) -> Result<Program, NoMemory>
        ensures steps { IfOk result (λ all.
            map step_of all.steps.items ≡ steps_of false 0 (meaning root.now)) }
        ensures marks { IfOk result (λ all. all.marks.items ≡ no_marks (meaning root.now)) }
    {
        let program = Program {
            steps: Vec::new(alloc),
            marks: Vec::new(alloc),
        };
        add(alloc, program, root)
    }

    fn with_step(self, step: Step) -> Result<Program, NoMemory>
        ensures steps { IfOk result (λ all.
            map step_of all.steps.items ≡ map step_of self.steps.items ++ step_of step ∷ []) }
        ensures marks { IfOk result (λ all. all.marks.items ≡ self.marks.items) }
    {
        let Program { mut steps, marks } = self;
        steps.push(step)?;
        Ok(Program { steps, marks })
    }

    /// Ends a choice that had one branch.
    fn with_end(self) -> Result<Program, NoMemory>
        ensures steps { IfOk result (λ all. map step_of all.steps.items
            ≡ map step_of self.steps.items ++ or_else ∷ join ∷ []) }
        ensures marks { IfOk result (λ all. all.marks.items ≡ self.marks.items) }
    {
        let program = self.with_step(Step::Or)?;
        program.with_step(Step::Join)
    }

    fn with_mark(self, mark: bool) -> Result<Program, NoMemory>
        ensures steps { IfOk result (λ all. all.steps.items ≡ self.steps.items) }
        ensures marks { IfOk result (λ all. all.marks.items ≡ self.marks.items ++ mark ∷ []) }
    {
        let Program { steps, mut marks } = self;
        marks.push(mark)?;
        Ok(Program { steps, marks })
    }
}

/// Appends the steps of the node.
#[cycle(add)]
fn add(alloc: Global, program: Program, node: &Node) -> Result<Program, NoMemory>
    ensures steps { IfOk result (λ all. map step_of all.steps.items
        ≡ map step_of program.steps.items
        ++ steps_of false (length program.marks.items) (meaning node.now)) }
    ensures marks { IfOk result (λ all.
        all.marks.items ≡ program.marks.items ++ no_marks (meaning node.now)) }
{
    let at = program.marks.len();
    match node {
        Node::Start => program.with_step(Step::Start(at))?.with_mark(true),
        Node::End => program.with_step(Step::End),
        Node::One(test) => {
            let step = of_one(alloc, at, test)?;
            program.with_step(step)?.with_mark(false)
        }
        Node::Sequence(parts) => add_parts(alloc, program, parts),
        Node::Choice(branches) => add_choice(alloc, program, branches),
        Node::Repeat(Quantifier::ZeroOrOne, inner) => {
            let program = program.with_step(Step::Maybe)?;
            let program = add(alloc, program, inner)?;
            program.with_end()
        }
        Node::Repeat(Quantifier::ZeroOrMore, inner) => {
            let program = program.with_step(Step::Maybe)?;
            let program = add_rounds(alloc, program, inner)?;
            program.with_end()
        }
        Node::Repeat(Quantifier::OneOrMore, inner) => add_rounds(alloc, program, inner),
    }
}

#[cycle(add)]
fn add_rounds(alloc: Global, program: Program, inner: &Node) -> Result<Program, NoMemory>
    ensures steps { IfOk result (λ all. map step_of all.steps.items
        ≡ map step_of program.steps.items
        ++ steps_of false (length program.marks.items) (repeat OneOrMore (meaning inner.now))) }
    ensures marks { IfOk result (λ all. all.marks.items
        ≡ program.marks.items ++ no_marks (repeat OneOrMore (meaning inner.now))) }
{
    let at = program.marks.len();
    let program = program.with_step(Step::Loop(at))?.with_mark(false)?;
    let program = add(alloc, program, inner)?;
    program.with_step(Step::Back(at))
}

#[cycle(add)]
fn add_parts(alloc: Global, program: Program, parts: &[Node]) -> Result<Program, NoMemory>
    ensures steps { IfOk result (λ all. map step_of all.steps.items
        ≡ map step_of program.steps.items
        ++ steps_of false (length program.marks.items) (sequence_of (map meaning parts.now))) }
    ensures marks { IfOk result (λ all. all.marks.items
        ≡ program.marks.items ++ no_marks (sequence_of (map meaning parts.now))) }
{
    let mut all = program;
    for i in 0..parts.len() {
        all = add(alloc, all, &parts[i])?;
    }
    Ok(all)
}

/// Appends the steps of a choice. A choice of one branch has the steps of that branch.
#[cycle(add)]
fn add_choice(alloc: Global, program: Program, branches: &[Node]) -> Result<Program, NoMemory>
    ensures steps { IfOk result (λ all. map step_of all.steps.items
        ≡ map step_of program.steps.items
        ++ steps_of false (length program.marks.items) (branch_of (map meaning branches.now))) }
    ensures marks { IfOk result (λ all. all.marks.items
        ≡ program.marks.items ++ no_marks (branch_of (map meaning branches.now))) }
{
    if branches.len() == 1 {
        return add(alloc, program, &branches[0]);
    }
    add_branches(alloc, program, branches)
}

#[cycle(add)]
fn add_branches(alloc: Global, program: Program, branches: &[Node]) -> Result<Program, NoMemory>
    ensures steps { IfOk result (λ all. map step_of all.steps.items
        ≡ map step_of program.steps.items ++ fork ∷
        steps_of true (length program.marks.items) (branch_of (map meaning branches.now))) }
    ensures marks { IfOk result (λ all. all.marks.items
        ≡ program.marks.items ++ no_marks (branch_of (map meaning branches.now))) }
{
    let mut all = program.with_step(Step::Fork)?;
    for i in 0..branches.len() {
        all = add(alloc, all, &branches[i])?.with_step(Step::Or)?;
    }
    all.with_step(Step::Join)
}

/// Returns the step of an atom of one byte, whose mark stands at a place.
fn of_one(alloc: Global, at: usize, test: &ByteTest) -> Result<Step, NoMemory>
    ensures { IfOk result (λ step. step_of step ≡ one_step at (byte_test test.now)) }
{
    match test {
        ByteTest::Any => Ok(Step::Any(at)),
        ByteTest::Same(byte) => Ok(Step::Same(at, *byte)),
        ByteTest::Inside(spans) => {
            let spans = Vec::from_slice(alloc, spans)?;
            Ok(Step::Tested(at, ByteTest::Inside(spans)))
        }
        ByteTest::Outside(spans) => {
            let spans = Vec::from_slice(alloc, spans)?;
            Ok(Step::Tested(at, ByteTest::Outside(spans)))
        }
    }
}

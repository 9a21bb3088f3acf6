// Buttons, checkboxes and sliders.

ghost use Rattle.std.specs.Prelude.{ℕ, ◌≡◌, ◌<◌, ◌≤◌, ◌∷◌, List, IfOk, IfSome, length, option_map, slice_get};
ghost use Rattle.fv_parse_grammar.specs.headline.Tree.{Tree as Spelled, Slider as SliderTree, start_of};
ghost use Rattle.fv_parse_grammar.specs.Slider.{Slider as SliderKind};
ghost use Rattle.fv_parse.specs.headline.Trees.{label_of};
ghost use Rattle.fv_parse.specs.Trees.{Parsed, size_of, tree_in};
ghost use Rattle.fv_diagram.specs.headline.Diagram.{Control};
ghost use Rattle.fv_rules.specs.headline.Values.{Env, Flat, Value as Meant};
ghost use Rattle.fv_rules.specs.headline.Matching.{value_number};
ghost use Rattle.fv_rules.specs.headline.Steps.{control};
ghost use Rattle.fv_rules.specs.headline.Rules.{flat, read_number, slider_info, slider_kind, switch_info, switch_kind};
ghost use Rattle.fv_eval_scopes.specs.Shows.{ShowsValue};
ghost use Rattle.fv_eval_drawing.specs.Makes.{IsThere as IsDrawn};
ghost use Rattle.fv_rules.specs.Machine.{Give, Running, given, next_parameter, parameter_read};
ghost use Rattle.fv_eval_drawing.specs.Controls.{info_of};
ghost use Rattle.fv_eval.specs.inner.Continuations.{IsSlider, IsThere, ShowsSlider, Steps, parameters_of, world};

use crate::continuation::{Continuation, Focus, ForValue};
use crate::iterate::not_a_number;
use crate::machine::Machine;
use fv_diagram::{ControlKind, Label, Node};
use fv_eval_drawing::Range;
use fv_eval_lookup::Definitions;
use fv_eval_scopes::{EnvId, Value};
use fv_parse::{Tree, TreeId, TreeNode};
use fv_parse_grammar::{Slider, Switch};
use fv_rules::EvalRefusal;
use std::alloc::AllocError;

// The kind of control that a word of the grammar makes.
fn switch_kind(kind: Switch) -> ControlKind
    ensures { result ≡ switch_kind kind }
{
    match kind {
        Switch::Button => ControlKind::Button,
        Switch::Checkbox => ControlKind::Checkbox,
    }
}

// The kind of control that a word with four parameters makes.
fn slider_kind(kind: Slider) -> ControlKind
    ensures { result ≡ slider_kind kind }
{
    match kind {
        Slider::Horizontal => ControlKind::HSlider,
        Slider::Vertical => ControlKind::VSlider,
        Slider::Number => ControlKind::NEntry,
    }
}

// Parameter `i` of a slider: init, min, max, step; `None` after them.
fn part_of(tree: &Tree, slider: TreeId, i: usize) -> Option<TreeId>
    requires { slider < size_of tree.now }
    ensures part { option_map (tree_in tree.now) result ≡ slice_get (parameters_of (tree_in tree.now slider)) i }
    ensures inside { IfSome result (λ id. id < size_of tree.now) }
{
    match tree.node(slider) {
        TreeNode::Slider(_, _, init, min, max, step) => match i {
            0 => Some(*init),
            1 => Some(*min),
            2 => Some(*max),
            3 => Some(*step),
            _ => None,
        },
        _ => None,
    }
}

impl Machine {
    // Gives a control with this label. Where the label was met before, it is not read again.
    fn control(&mut self, tree: &Tree, label: u64, range: &Range) -> Result<Focus, EvalRefusal>
        ensures { Steps tree.now self.old self.new result (λ Fs s. given (flat (control (info_of range.now (label_of tree.now.tokens label))) s) Fs) }
    {
        match self.labels.met(&self.controls, label, range) {
            Some(number) => self.give_control(number),
            None => self.enter(tree, label, range),
        }
    }

    // Gives the control with this number.
    fn give_control(&mut self, number: u32) -> Result<Focus, EvalRefusal>
        ensures { (p : Parsed) → Steps p self.old self.new result (λ Fs s. Running (Give (Flat (Control number))) Fs s) }
    {
        let id = self.drawing.leaf(&Node::Control(number))?;
        Ok(Focus::Give(Value::Diagram(id)))
    }

    // Enters and gives a control with this label, and keeps its label.
    fn enter(&mut self, tree: &Tree, label: u64, range: &Range) -> Result<Focus, EvalRefusal>
        ensures { Steps tree.now self.old self.new result (λ Fs s. given (flat (control (info_of range.now (label_of tree.now.tokens label))) s) Fs) }
    {
        let name = Label::new(self.alloc, tree.label(label))?;
        match self.controls.enter(range.named(name)) {
            Ok(number) => {
                self.labels.keep(label, number);
                self.give_control(number)
            }
            Err(refusal) => Err(refusal),
        }
    }

    /// Gives a button or a checkbox.
    pub fn switch(&mut self, tree: &Tree, kind: Switch, label: u64) -> Result<Focus, EvalRefusal>
        ensures { Steps tree.now self.old self.new result
            (λ Fs s. given (flat (control (switch_info (switch_kind kind) (label_of tree.now.tokens label))) s) Fs) }
    {
        let range = Range {
            kind: switch_kind(kind),
            init: 0,
            min: 0,
            max: 1,
        };
        self.control(tree, label, &range)
    }

    /// Visits the next parameter of a slider, or gives the slider.
    pub fn next_parameter(
        &mut self,
        text: &Definitions,
        slider: TreeId,
        env: EnvId,
        done: Vec<i32>,
    ) -> Result<Focus, EvalRefusal>
        requires slider { slider < size_of text.now }
        requires form { IsSlider (tree_in text.now slider) }
        ensures { (k : SliderKind) (label : List ℕ) (E : Env) (xs : List Spelled)
            → ShowsSlider (world text.now self.old) slider env (length done.items) k label E xs
            → Steps text.now self.old self.new result (λ Fs s. next_parameter (slider_kind k) label xs E done.items Fs s) }
    {
        let tree = text.tree();
        match part_of(tree, slider, done.len()) {
            Some(id) => {
                let continuation = ForValue::Parameter { slider, env, done };
                self.wait(Continuation::Valued(continuation), id, env)
            }
            None => self.finish_slider(tree, slider, done.as_slice()),
        }
    }

    // Gives a slider whose parameters are known.
    fn finish_slider(
        &mut self,
        tree: &Tree,
        slider: TreeId,
        numbers: &[i32],
    ) -> Result<Focus, EvalRefusal>
        requires slider { slider < size_of tree.now }
        requires form { IsSlider (tree_in tree.now slider) }
        requires numbers { 4 ≤ length numbers.now }
        ensures { (s : ℕ) (k : SliderKind) (n : ℕ) (x0 x1 x2 x3 : Spelled) → tree_in tree.now slider ≡ SliderTree s k n x0 x1 x2 x3
            → Steps tree.now self.old self.new result
            (λ Fs t. given (flat (control (slider_info (slider_kind k) (label_of tree.now.tokens n) numbers.now)) t) Fs) }
    {
        let TreeNode::Slider(kind, n, _, _, _, _) = tree.node(slider) else {
            unreachable!();
        };
        let [init, min, max, ..] = numbers else {
            unreachable!();
        };
        let range = Range {
            kind: slider_kind(*kind),
            init: *init,
            min: *min,
            max: *max,
        };
        self.control(tree, *n, &range)
    }

    // The number of a value; `None` where it has none.
    fn number_in(&mut self, value: Value) -> Result<Option<i32>, AllocError>
        requires { IsDrawn self.old.drawing.diagrams value }
        ensures number { IfOk result (λ o. (p : Parsed) (v : Meant) → ShowsValue (world p self.old) value v → o ≡ value_number v) }
        ensures same { self.new ≡ self.old }
    {
        match value {
            Value::Diagram(id) => self.drawing.number_of(self.alloc, id),
            Value::Abstraction { .. } | Value::Rules { .. } => Ok(None),
        }
    }

    /// Takes a parameter of a slider.
    pub fn parameter_arrives(
        &mut self,
        text: &Definitions,
        slider: TreeId,
        env: EnvId,
        mut done: Vec<i32>,
        value: Value,
    ) -> Result<Focus, EvalRefusal>
        requires slider { slider < size_of text.now }
        requires form { IsSlider (tree_in text.now slider) }
        requires left { length done.items < 4 }
        requires value { IsThere (world text.now self.old) value }
        ensures { (k : SliderKind) (label : List ℕ) (E : Env) (x : Spelled) (more : List Spelled) (v : Meant)
            → ShowsSlider (world text.now self.old) slider env (length done.items) k label E (x ∷ more) → ShowsValue (world text.now self.old) value v
            → Steps text.now self.old self.new result
            (λ Fs s. parameter_read (slider_kind k) label more E done.items (read_number text.now.tokens (start_of x) (value_number v) s) Fs) }
    {
        match self.number_in(value)? {
            Some(n) => {
                done.push(n)?;
                self.next_parameter(text, slider, env, done)
            }
            None => {
                let tree = text.tree();
                match part_of(tree, slider, done.len()) {
                    Some(id) => Err(not_a_number(tree, id)),
                    None => unreachable!(),
                }
            }
        }
    }
}

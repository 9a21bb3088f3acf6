// The kinds that words of the grammar tell: of iterations, of ports, of controls and of groups.

/// `par`, `seq`, `sum` or `prod`.
#[derive(Clone, Copy, Debug, PartialEq, Eq)]
pub enum Iteration {
    Parallel,
    Sequence,
    Sum,
    Product,
}

/// `inputs` or `outputs`.
#[derive(Clone, Copy, Debug, PartialEq, Eq)]
pub enum Side {
    Inputs,
    Outputs,
}

/// `button` or `checkbox`.
#[derive(Clone, Copy, Debug, PartialEq, Eq)]
pub enum Switch {
    Button,
    Checkbox,
}

/// `hslider`, `vslider` or `nentry`.
#[derive(Clone, Copy, Debug, PartialEq, Eq)]
pub enum Slider {
    Horizontal,
    Vertical,
    Number,
}

/// `hgroup`, `vgroup` or `tgroup`.
#[derive(Clone, Copy, Debug, PartialEq, Eq)]
pub enum Panel {
    Horizontal,
    Vertical,
    Tabs,
}

// What operands have to stay below.

ghost use Rattle.flags.specs.Flags.{Limits};

// Limits by the number of an operand's role: none, registers, constants, symbols, children, registers with one behind them and with two.
#[derive(Clone, Copy)]
pub struct OperandLimits {
    pub by_role: [u32; 7],
    ghost limits: { Limits by_role },
}

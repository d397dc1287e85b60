ghost use Rattle.std.specs.Prelude.{◌≡◌, ◌<◌, ◌%◌, slice_index};
ghost use Rattle.std.specs.Option.{ForSome};
ghost use Rattle.rv_execute.specs.declared.op.TheConstants.{MOST_NUMBERS};

/// The registers of one hart: x0 to x31, the program counter, and what its last load-reserved kept,
/// the word's address and the number of that access.
#[derive(Clone, Copy, Debug, PartialEq, Eq)]
pub struct Hart {
    pub regs: [u32; 32],
    pub pc: u32,
    pub kept: Option<(u32, u32)>,
    ghost zero: { slice_index regs 0 ≡ 0 },
    ghost aligned: { pc % 4 ≡ 0 },
    ghost kept_below: { ForSome kept (λ k. k.1 < MOST_NUMBERS) },
}

impl Hart {
    ghost use Rattle.rv_execute.specs.Words.{plus};
    ghost use Rattle.rv_execute.specs.Harts.{state_of, reg, written};
    ghost use Rattle.rv_execute.specs.Instructions.{address, jump_target, register_target};

    /// The word in a register.
    pub(crate) fn register(&self, number: u8) -> u32
        requires { number < 32 }
        ensures { result ≡ reg (state_of self.now) number }
    {
        self.regs[number as usize]
    }

    /// The address at this distance from what a register holds.
    pub(crate) fn address(&self, base: u8, offset: i32) -> u32
        requires { base < 32 }
        ensures { result ≡ address (state_of self.now) base offset }
    {
        self.register(base).wrapping_add(offset.cast_unsigned())
    }

    /// Where a jump over this distance goes.
    pub(crate) fn jump_target(&self, offset: i32) -> u32
        ensures { result ≡ jump_target (state_of self.now) offset }
    {
        self.pc.wrapping_add(offset.cast_unsigned())
    }

    /// Where a jump to this distance from what a register holds goes: its lowest bit is cleared.
    pub(crate) fn register_target(&self, base: u8, offset: i32) -> u32
        requires { base < 32 }
        ensures { result ≡ register_target (state_of self.now) base offset }
    {
        let address = self.address(base, offset);
        address - address % 2
    }

    /// Writes a register, but for x0.
    fn write(&mut self, rd: u8, value: u32)
        requires { rd < 32 }
        ensures { state_of self.new ≡ record (state_of self.old) { regs = written rd value self.old.regs } }
    {
        if rd != 0 {
            self.regs[rd as usize] = value;
        }
    }

    /// Goes on at the next instruction.
    pub(crate) fn advance(&mut self)
        ensures { state_of self.new ≡ record (state_of self.old) { pc = plus self.old.pc 4 } }
    {
        self.pc = self.pc.wrapping_add(4);
    }

    /// Goes on at this address.
    pub(crate) fn jump(&mut self, target: u32)
        requires { target % 4 ≡ 0 }
        ensures { state_of self.new ≡ record (state_of self.old) { pc = target } }
    {
        self.pc = target;
    }

    /// Writes a register and goes on at the next instruction.
    pub(crate) fn retire(&mut self, rd: u8, value: u32)
        requires { rd < 32 }
        ensures { state_of self.new ≡ record (state_of self.old) { regs = written rd value self.old.regs; pc = plus self.old.pc 4 } }
    {
        self.write(rd, value);
        self.advance();
    }

    /// Writes the address of the next instruction to a register and goes on at this address.
    pub(crate) fn link(&mut self, rd: u8, target: u32)
        requires register { rd < 32 }
        requires aligned { target % 4 ≡ 0 }
        ensures { state_of self.new ≡ record (state_of self.old) { regs = written rd (plus self.old.pc 4) self.old.regs; pc = target } }
    {
        self.write(rd, self.pc.wrapping_add(4));
        self.jump(target);
    }

    /// Keeps a word's address and the number of an access to it.
    pub(crate) fn reserve(&mut self, address: u32, number: u32)
        requires { number < MOST_NUMBERS }
        ensures { state_of self.new ≡ record (state_of self.old) { kept = Some (address, number) } }
    {
        self.kept = Some((address, number));
    }

    /// Keeps nothing.
    pub(crate) fn release(&mut self)
        ensures { state_of self.new ≡ record (state_of self.old) { kept = None } }
    {
        self.kept = None;
    }
}

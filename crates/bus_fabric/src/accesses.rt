//! An access to the bus, one function a rule: its number, the first word of an instruction, the right, the region.

ghost use Rattle.std.specs.Prelude.{◌≡◌, ◌<◌};
ghost use Rattle.memory_map.specs.declared.TheConstants.{MAIN_END};
ghost use Rattle.chip_words.specs.Access.{access_allowed, access_by_right, access_memory, access_present, access_region, access_register, blank as blank_of, violated, is_beyond_boot as is_beyond_boot_of, is_low_start as is_low_start_of, ones as ones_of, unchanged_answer, with_listed};
ghost use Rattle.chip_words.specs.BusPart.{HasRoom};
ghost use Rattle.chip_words.specs.Map.{aligned as aligned_at, region_at};
ghost use Rattle.chip_words.specs.Right.{right_of};
ghost use Rattle.chip_words.specs.Sizes.{IsByteOrWord, span};

use crate::fabric::Fabric;
use chip_words::{Access, Agent, Bus, Kind, PERIPHERAL_FETCH, Right, Segment, Size, load, store};
use memory_map::{Region, aligned, is_fram, region_of};

/// What is read where nothing answers.
fn blank(size: Size) -> u32
    requires width { IsByteOrWord size }
    ensures value { result ≡ blank_of size }
    ensures small { result < span size }
{
    match size {
        Size::Byte => 0xFF,
        Size::Word | Size::Addr => 0x3FFF,
    }
}

/// What is read of the device descriptor.
fn ones(size: Size) -> u32
    requires width { IsByteOrWord size }
    ensures value { result ≡ ones_of size }
    ensures small { result < span size }
{
    match size {
        Size::Byte => 0xFF,
        Size::Word | Size::Addr => 0xFFFF,
    }
}

/// Says whether the processor takes the first word of its instruction from the peripherals.
fn is_low_start(who: Agent, kind: Kind, at: u32) -> bool
    ensures start { result ≡ is_low_start_of who kind at }
{
    match (who, kind) {
        (Agent::Cpu(ia), Kind::Fetch) => at == ia && at < 0x1000,
        _ => false,
    }
}

/// Says whether the boot reads beyond FRAM.
fn is_beyond_boot(who: Agent, kind: Kind, at: u32) -> bool
    requires place { at < 0x100000 }
    ensures beyond { result ≡ is_beyond_boot_of who kind at }
{
    match (who, kind) {
        (Agent::Boot, Kind::Read) => !is_fram(at),
        _ => false,
    }
}

/// What an access answers that changes nothing.
fn access_nothing(kind: Kind, read: u32, value: u32) -> u32
    ensures answer { result ≡ unchanged_answer kind read value }
{
    match kind {
        Kind::Write => value,
        Kind::Fetch | Kind::Read => read,
    }
}

impl Fabric {
    ghost use Rattle.bus_fabric.specs.Fabric.{Accesses, Changes, ListsOne, bus_part_of, units_of};

    /// An access to a register of the peripherals.
    #[inline(never)]
    #[tactic(auto, unfolding(chip_words::specs::Units::periph), using(crate::proofs::Kept::kept_by_a_read))]
    fn access_register(&mut self, kind: Kind, at: u32, size: Size, value: u32) -> u32
        requires width { IsByteOrWord size }
        requires fits { value < span size }
        ensures small { result < span size }
        ensures access { Accesses (access_register kind at size value) self.old result self.new }
    {
        match kind {
            Kind::Write => {
                if let Some(cause) = self.write_register(at, size, value) {
                    self.request(cause);
                }
                value
            }
            Kind::Fetch | Kind::Read => self.read_register(at, size),
        }
    }

    /// An access to bytes of memory.
    #[inline(always)]
    fn access_memory(&mut self, kind: Kind, at: u32, size: Size, value: u32) -> u32
        requires place { at < MAIN_END }
        requires even { aligned_at size at ≡ at }
        requires width { IsByteOrWord size }
        requires fits { value < span size }
        ensures small { result < span size }
        ensures access { Accesses (access_memory kind at size value) self.old result self.new }
    {
        match kind {
            Kind::Write => {
                store(self.memory.as_mut_slice(), at as usize, size, value);
                value
            }
            Kind::Fetch | Kind::Read => load(self.memory.as_slice(), at as usize, size),
        }
    }

    /// An access that has its right, by the region of its address, which is even for a word.
    #[inline(always)]
    fn access_region(&mut self, kind: Kind, at: u32, size: Size, value: u32) -> u32
        requires place { at < 0x100000 }
        requires even { aligned_at size at ≡ at }
        requires width { IsByteOrWord size }
        requires fits { value < span size }
        ensures small { result < span size }
        ensures access { Accesses (access_region (region_at at) kind at size value) self.old result self.new }
    {
        match region_of(at) {
            Region::Periph => self.access_register(kind, at, size, value),
            Region::Descriptor => access_nothing(kind, ones(size), value),
            Region::Vacant => access_nothing(kind, blank(size), value),
            Region::Info | Region::Sram | Region::Main => self.access_memory(kind, at, size, value),
        }
    }

    /// The right of an access: the encapsulation is asked first, and the segments judge the processor and DMA.
    #[inline(always)]
    #[tactic(auto, unfolding(chip_words::specs::Right::right_of))]
    fn right(&self, who: Agent, kind: Kind, at: u32) -> Right
        requires place { at < 0x100000 }
        ensures right { result ≡ right_of (units_of self.now) who kind at }
    {
        if !self.encap.allows(who, at, kind) {
            return Right::No(Segment::Sealed);
        }
        match who {
            Agent::Cpu(_) | Agent::Dma => self.mpu.right(kind, at),
            Agent::Entry | Agent::Debug | Agent::Boot => Right::Yes,
        }
    }

    /// Notes a violation at a place, but for the debugger's and the boot's.
    fn violate(&mut self, who: Agent, place: Segment)
        ensures notes { Changes (violated who place) self.old self.new }
    {
        match who {
            Agent::Cpu(_) | Agent::Entry | Agent::Dma => self.noted |= 1 << place.flag(),
            Agent::Debug | Agent::Boot => {}
        }
    }

    /// An access by its right.
    #[inline(always)]
    fn access_by_right(
        &mut self,
        right: Right,
        who: Agent,
        kind: Kind,
        at: u32,
        size: Size,
        value: u32,
    ) -> u32
        requires place { at < 0x100000 }
        requires even { aligned_at size at ≡ at }
        requires width { IsByteOrWord size }
        requires fits { value < span size }
        ensures small { result < span size }
        ensures access { Accesses (access_by_right right who kind at size value) self.old result self.new }
    {
        if let Right::No(place) = right {
            self.violate(who, place);
            return access_nothing(kind, blank(size), value);
        }
        if is_beyond_boot(who, kind, at) {
            return blank(size);
        }
        self.access_region(kind, at, size, value)
    }

    /// An access by the rule on first words, and then by its right.
    #[inline(always)]
    fn access_allowed(&mut self, who: Agent, kind: Kind, at: u32, size: Size, value: u32) -> u32
        requires place { at < 0x100000 }
        requires even { aligned_at size at ≡ at }
        requires width { IsByteOrWord size }
        requires fits { value < span size }
        ensures small { result < span size }
        ensures access { Accesses (access_allowed who kind at size value) self.old result self.new }
    {
        if is_low_start(who, kind, at) {
            self.request(PERIPHERAL_FETCH);
            return blank(size);
        }
        let right = self.right(who, kind, at);
        self.access_by_right(right, who, kind, at, size, value)
    }

    /// Adds an access to the step's list, but for the debugger's.
    #[tactic(auto, using(crate::proofs::ListedAccesses::with_one_more))]
    fn list(&mut self, who: Agent, kind: Kind, at: u32, size: Size, value: u32, done: bool)
        requires place { at < 0x100000 }
        requires width { IsByteOrWord size }
        requires fits { value < span size }
        requires room { HasRoom who (bus_part_of self.old) }
        ensures list { Changes (with_listed who kind at size value done) self.old self.new }
        ensures count { ListsOne self.old self.new }
    {
        match who {
            Agent::Debug => {}
            Agent::Cpu(_) | Agent::Entry | Agent::Dma | Agent::Boot => self.accesses.push(Access {
                kind,
                at,
                size,
                value,
                done,
            }),
        }
    }

    /// An access that is present, at an aligned address. Each of the calls of `Bus` has a copy of its own.
    #[inline(always)]
    fn access_present(&mut self, who: Agent, kind: Kind, at: u32, size: Size, value: u32) -> u32
        requires place { at < 0x100000 }
        requires even { aligned_at size at ≡ at }
        requires width { IsByteOrWord size }
        requires fits { value < span size }
        requires room { HasRoom who (bus_part_of self.old) }
        ensures small { result < span size }
        ensures access { Accesses (access_present who kind at size value) self.old result self.new }
        ensures count { ListsOne self.old self.new }
    {
        let answer = self.access_allowed(who, kind, at, size, value);
        self.list(who, kind, at, size, answer, true);
        answer
    }
}

impl Bus for Fabric {
    ghost use Rattle.bus_fabric.specs.Fabric.{bus_part_of};

    ghost part = { bus_part_of };

    #[inline(always)]
    #[tactic(auto, unfolding(chip_words::specs::Access::access))]
    fn fetch(&mut self, ia: u32, at: u32) -> u16 {
        let at = aligned(at, Size::Word);
        self.access_present(Agent::Cpu(ia), Kind::Fetch, at, Size::Word, 0) as u16
    }

    #[inline(never)]
    #[tactic(auto, unfolding(chip_words::specs::Access::access))]
    fn read(&mut self, who: Agent, at: u32, size: Size) -> u32 {
        self.access_present(who, Kind::Read, aligned(at, size), size, 0)
    }

    #[inline(never)]
    #[tactic(auto, unfolding(chip_words::specs::Access::access))]
    fn write(&mut self, who: Agent, at: u32, size: Size, value: u32) {
        let at = aligned(at, size);
        if self.number() {
            self.access_present(who, Kind::Write, at, size, value);
        } else {
            self.list(who, Kind::Write, at, size, value, false);
        }
    }
}

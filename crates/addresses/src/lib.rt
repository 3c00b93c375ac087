// Addresses, their pages, EP4TAs, and the cover test.
#![tactic(auto)]

ghost use Rattle.std.specs.Prelude.{◌≡◌};
ghost use Rattle.model.specs.Mappings.{covers};
ghost use Rattle.model.specs.Events.{canonical, page_of, guest_physical_page_of};
ghost use Rattle.model.specs.Scopes.{ep4ta_of};

// Bits 63 to 47 of a linear address are all equal, or bits 63 to 56 at linear width 57. Any width but 57 is read as 48.
pub fn is_canonical(width: u64, address: u64) -> bool
    ensures { result ≡ canonical width address }
{
    if width == model::WIDE_WIDTH {
        let top = (address >> 56) % 256;
        return (top == 0) | (top == 255);
    }
    let top = (address >> 47) % 131072;
    (top == 0) | (top == 131071)
}

// The page of a guest-physical address: its bits 47 to 12.
pub fn guest_physical_page(address: u64) -> u64
    ensures { result ≡ guest_physical_page_of address }
{
    (address >> 12) % model::PAGE_LIMIT
}

// The page of a linear address: its bits 47 to 12, or 56 to 12 at linear width 57.
pub fn page(width: u64, address: u64) -> u64
    ensures { result ≡ page_of width address }
{
    let number = address >> 12;
    if width == model::WIDE_WIDTH {
        return number % model::WIDE_PAGE_LIMIT;
    }
    number % model::PAGE_LIMIT
}

// The EP4TA of an EPTP: its bits 51 to 12.
pub fn ep4ta(eptp: u64) -> u64
    ensures { result ≡ ep4ta_of eptp }
{
    let above = eptp >> 12;
    above % model::EP4TA_LIMIT
}

// A record of this span and page covers the page p. A span of 8 or more has 2^72 pages or more, so
// it covers every page.
pub fn is_covered(span: u64, page: u64, p: u64) -> bool
    ensures { result ≡ covers span page p }
{
    if 8 <= span {
        return true;
    }
    let shift = 9 * span;
    (p >> shift) == (page >> shift)
}

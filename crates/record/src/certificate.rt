// A certificate as it stands in a record, and its parts, each handed on as a part of the record.
ghost use Rattle.record.specs.Whole.{Whole};

use crate::{
    CERTIFICATE_HEAD, INHIBIT_ANY, INHIBIT_MAPPING, PAIRS, POLICIES, REQUIRE_EXPLICIT, SELF_ISSUED,
};

// The certificate that stands at the start of `numbers`; others may follow it.
#[derive(Clone, Copy)]
pub struct Held<'a> {
    pub numbers: &'a [u16],
    ghost whole: { Whole numbers.now },
}

impl<'a> Held<'a> {
    ghost use Rattle.std.specs.Prelude.{◌≡◌, drop};
    ghost use Rattle.record.specs.Record.{issued, subjected, size};
    ghost use Rattle.record.specs.Unpacked.{skip_of, unpacked_certificate};
    ghost use Rattle.record.specs.Whole.{Whole};

    // The certificate at place `at` of a record.
    pub fn at(rec: &'a [u16], at: usize) -> Held<'a>
        requires { Whole (drop at rec.now) }
        ensures { result.numbers.now ≡ drop at rec.now }
    {
        Held {
            numbers: &rec[at..],
        }
    }

    // How many places it takes: so far on starts the next certificate.
    pub fn places(&self) -> usize
        ensures { result ≡ size (unpacked_certificate self.now.numbers.now) }
    {
        let pairs = usize::from(self.numbers[PAIRS]);
        CERTIFICATE_HEAD + usize::from(self.numbers[POLICIES]) + pairs + pairs
    }

    pub fn is_self_issued(&self) -> bool
        ensures { result ≡ (unpacked_certificate self.now.numbers.now).self_issued }
    {
        self.numbers[SELF_ISSUED] != 0
    }

    pub fn policies(&self) -> &'a [u16]
        ensures { result.now ≡ (unpacked_certificate self.now.numbers.now).policies }
    {
        let end = CERTIFICATE_HEAD + usize::from(self.numbers[POLICIES]);
        &self.numbers[CERTIFICATE_HEAD..end]
    }

    // The issuers of its pairs.
    pub fn issuers(&self) -> &'a [u16]
        ensures { result.now ≡ issued (unpacked_certificate self.now.numbers.now) }
    {
        let first = CERTIFICATE_HEAD + usize::from(self.numbers[POLICIES]);
        let end = first + usize::from(self.numbers[PAIRS]);
        &self.numbers[first..end]
    }

    // The subjects of its pairs.
    pub fn subjects(&self) -> &'a [u16]
        ensures { result.now ≡ subjected (unpacked_certificate self.now.numbers.now) }
    {
        let pairs = usize::from(self.numbers[PAIRS]);
        let first = CERTIFICATE_HEAD + usize::from(self.numbers[POLICIES]) + pairs;
        let end = first + pairs;
        &self.numbers[first..end]
    }

    // The three skip values as the record has them: 0 absent, else the value and 1.
    #[tactic(auto, unfolding(crate::specs::Unpacked::unpacked_certificate))]
    pub fn require_explicit(&self) -> u16
        ensures { skip_of result ≡ (unpacked_certificate self.now.numbers.now).require_explicit }
    {
        self.numbers[REQUIRE_EXPLICIT]
    }

    #[tactic(auto, unfolding(crate::specs::Unpacked::unpacked_certificate))]
    pub fn inhibit_mapping(&self) -> u16
        ensures { skip_of result ≡ (unpacked_certificate self.now.numbers.now).inhibit_mapping }
    {
        self.numbers[INHIBIT_MAPPING]
    }

    #[tactic(auto, unfolding(crate::specs::Unpacked::unpacked_certificate))]
    pub fn inhibit_any(&self) -> u16
        ensures { skip_of result ≡ (unpacked_certificate self.now.numbers.now).inhibit_any }
    {
        self.numbers[INHIBIT_ANY]
    }
}

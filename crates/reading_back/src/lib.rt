//! What is printed is read back. Printed shares are read as the same shares, and a printed certificate as that
//! certificate. A printed nucleolus is read as a document of its game, with its family, its shares and its certificate.
//! Each function's contract is a theorem, and its body is empty.
#![tactic(auto)]

ghost use Rattle.reading_back.specs.ReadBack.{SharesAreReadBack, ShareListsAreArrays};
ghost use Rattle.reading_back.specs.CertificatesReadBack.{CertificatesAreReadBack};
ghost use Rattle.reading_back.specs.DocumentsReadBack.{PrintedNucleolusIsADocument};
ghost use Rattle.reading_back.specs.SameShares.{SameSharesStayInTheFamily, SameSharesCertify};
ghost use Rattle.reading_back.specs.SameShares.{SameSharesAreTheNucleolus};

/// A printed list of shares is an array of texts.
pub fn share_lists_are_arrays()
    ensures { ShareListsAreArrays }
{}

/// The shares of a printed list are read as the shares that were printed, over their least common denominator.
pub fn shares_are_read_back()
    ensures { SharesAreReadBack }
{}

/// A printed certificate is read as the certificate that was printed, if each level's excess is in lowest terms.
pub fn certificates_are_read_back()
    ensures { CertificatesAreReadBack }
{}

/// The line of a game's nucleolus or prenucleolus isn't refused when it is checked. It is read with the same game,
/// measure, family and certificate, and with the same shares, perhaps over another denominator.
pub fn printed_nucleolus_is_a_document()
    ensures { PrintedNucleolusIsADocument }
{}

/// An imputation's shares over another denominator are an imputation, and a preimputation's a preimputation.
pub fn same_shares_stay_in_the_family()
    ensures { SameSharesStayInTheFamily }
{}

/// A certificate of shares certifies the same shares over another denominator.
pub fn same_shares_certify()
    ensures { SameSharesCertify }
{}

/// The shares of the nucleolus over another denominator are the nucleolus (Schmeidler 1969).
pub fn same_shares_are_the_nucleolus()
    ensures { SameSharesAreTheNucleolus }
{}

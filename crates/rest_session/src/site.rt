// What a client may ask of a service itself.
ghost use Rattle.std.specs.Prelude.{◌≡◌, true};

use rest_parse::SiteCall;

/// What a client may ask of a service itself: its page, and that it shut down.
pub trait Site {
    ghost use Rattle.rest_session.specs.Heard.{SiteView, is_offered};

    /// What of it.
    ghost offers: { Self → SiteView };

    /// Whether a client may ask this.
    fn offers(&self, call: SiteCall) -> bool
        ensures { result ≡ is_offered (offers self.now) call };

    /// Asks the service to shut down.
    fn shut_down(&self);

    /// Whether it was asked to; never where no client may ask it.
    fn is_shut(&self) -> bool
        ensures { result ≡ true → (offers self.now).shutdown ≡ true };
}

/// At most the page: this says whether.
#[derive(Clone, Copy, Debug, PartialEq, Eq)]
pub struct PageAlone(pub bool);

impl Site for PageAlone {
    ghost use Rattle.rest_session.specs.Heard.{paged};

    ghost offers = { λ site. paged site.0 };

    fn offers(&self, call: SiteCall) -> bool {
        match call {
            SiteCall::Page => self.0,
            SiteCall::Close => false,
        }
    }

    fn shut_down(&self) {}

    fn is_shut(&self) -> bool {
        false
    }
}

//! The law of resizing, as the contract of a function that does nothing.
ghost use Rattle.dp_aggregate.specs.ResizeLaw.{OrderLaw, ResizeLaw};

/// What `Resize` gives: the least numbers of a list, as many as fit, in rising order, and then fill up to exactly the
/// size. The rising order itself rises, and has each number as often as the list.
pub fn resize_law()
    ensures order { OrderLaw }
    ensures resized { ResizeLaw }
{}

#[cfg(test)]
mod tests {
    use super::*;

    /// A call gives its laws to the function that makes it.
    fn given()
        ensures order { OrderLaw }
        ensures resized { ResizeLaw }
    {
        resize_law();
    }

    #[test]
    fn a_call_gives_its_laws(_rt: HostRuntime) {
        given();
    }
}
